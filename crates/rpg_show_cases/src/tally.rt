//! The results of a sweep.

use rpg_cli_text::TextWriter;

/// The beginning of each kind of line; a line of `refused: ` is of the kind of the code after it.
const KINDS: &str =
    "B1 ,B2 ,B3 ,B4 ,B5 ,B6 ,B7 ,V1 ,V2 ,V3 ,V4 ,V5 ,V6 ,V7 ,V8 ,V9 ,V10 ,V11 ,V12 ,V13 ,V14 ,V15 ,V16 ,V17 ,V18 ,V19 ,V20 ,V21 ,V22 ,V23 ,V24 ,V25 ,V26 ,\
    end of job,halt 1,halt 2,halt 3,halt 4,halt 5,halt 6,halt 7,halt 8,past the bound,again,other bytes,no kind";

/// The places of these among the kinds.
const AGAIN: usize = 43;

const OTHER_BYTES: usize = 44;

const NO_KIND: usize = 45;

/// The results of a sweep.
#[derive(Drop)]
pub struct Tally {
    /// The count of each kind.
    counts: [u64; 46],
    /// The checksum of all lines, prints and disk files (FNV-1a).
    sum: u32,
}

fn kind_of(line: &str) -> usize {
    let reported = line.strip_prefix("refused: ").unwrap_or(line);
    for (kind, name) in KINDS.split(',').enumerate() {
        if reported.starts_with(name) {
            return kind;
        }
    }
    NO_KIND
}

impl Tally {
    pub fn new() -> Tally {
        Tally {
            counts: [0; 46],
            sum: 2_166_136_261,
        }
    }

    /// Adds a run's output to the checksum.
    pub fn add_bytes(&mut self, bytes: &[u8]) {
        for byte in bytes {
            self.sum = (self.sum ^ u32::from(*byte)).wrapping_mul(16_777_619);
        }
    }

    /// Counts a line by its kind.
    pub fn count(&mut self, line: &str) {
        if let Some(count) = self.counts.get_mut(kind_of(line)) {
            *count = count.saturating_add(1);
        }
    }

    /// Writes the count of each kind, and the checksum.
    pub fn write(&self, out: &mut TextWriter) {
        for (kind, count) in KINDS.split(',').zip(&self.counts) {
            if *count > 0 {
                out.fill("{} {}, ", &[kind.trim_end().into(), (*count).into()]);
            }
        }
        out.fill("sum {}", &[u64::from(self.sum).into()]);
    }

    /// Whether some bytes were encoded again unchanged, and none differently.
    pub fn is_spelled_again(&self) -> bool {
        self.counts[AGAIN] > 0 && self.counts[OTHER_BYTES] == 0
    }
}
