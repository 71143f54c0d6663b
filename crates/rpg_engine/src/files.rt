//! The files that a job reads and writes.

ghost use Rattle.std.specs.Prelude.{◌≡◌};
ghost use Rattle.rpg_files.specs.Counting.{device_of, faults_of};

use rpg_files::Counted;

/// The inputs of a job. The secondary one isn't read if the program has no secondary file.
#[derive(Drop)]
pub struct Readers<R1, R2> {
    pub primary: Counted<R1>,
    pub secondary: Counted<R2>,
}

impl<R1, R2> Readers<R1, R2> {
    /// Returns readers that haven't failed yet.
    pub fn new(primary: R1, secondary: R2) -> Readers<R1, R2>
        ensures primary { device_of result.primary ≡ primary }
        ensures secondary { device_of result.secondary ≡ secondary }
        ensures primary_faults { faults_of result.primary ≡ 0 }
        ensures secondary_faults { faults_of result.secondary ≡ 0 }
    {
        Readers {
            primary: Counted::new(primary),
            secondary: Counted::new(secondary),
        }
    }
}

/// A file that a run writes: the printed lines, or the records of the disk file.
#[derive(Clone, Copy, PartialEq, Eq)]
pub enum OutputFile {
    Print,
    Disk,
}

/// What a job writes: printed lines, and the records of its disk file.
#[derive(Drop)]
pub struct Writers<W1, W2> {
    pub printer: Counted<W1>,
    pub disk: Counted<W2>,
}

impl<W1, W2> Writers<W1, W2> {
    /// Returns writers that haven't failed yet.
    pub fn new(printer: W1, disk: W2) -> Writers<W1, W2>
        ensures printer { device_of result.printer ≡ printer }
        ensures disk { device_of result.disk ≡ disk }
        ensures printer_faults { faults_of result.printer ≡ 0 }
        ensures disk_faults { faults_of result.disk ≡ 0 }
    {
        Writers {
            printer: Counted::new(printer),
            disk: Counted::new(disk),
        }
    }
}
