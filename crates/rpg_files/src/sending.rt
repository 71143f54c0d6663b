//! Sends all bytes of an output to a writer.

ghost use Rattle.std.specs.Prelude.{◌≡◌, ◌-◌, ◌^◌, ◌<◌, length, OnOk, IfErr};
ghost use Rattle.std.specs.Io.KnownBytes.{Appends};
ghost use Rattle.rpg_files.specs.Counting.{faults_after, device_of, faults_of};
ghost use Rattle.rpg_files.specs.Sending.{AppendsFirst};

use crate::counting::Counted;
use std::io::Write;

/// A writer failed after it wrote this many bytes.
#[derive(Clone, Copy)]
pub struct WriteFault {
    pub sent: usize,
}

/// Writes all bytes, or as many as the writer accepts.
pub fn send<W: Write>(writer: &mut Counted<W>, bytes: &[u8]) -> Result<(), WriteFault>
    requires { faults_of writer.old < 2 ^ 64 - 1 }
    ensures ok { OnOk result (Appends (W.contents (device_of writer.old)) (W.contents (device_of writer.new)) bytes.now) }
    ensures err { IfErr result (λ e. AppendsFirst (W.contents (device_of writer.old)) (W.contents (device_of writer.new)) e.sent bytes.now) }
    ensures part { IfErr result (λ e. e.sent < length bytes.now) }
    ensures faults { faults_of writer.new ≡ faults_after (faults_of writer.old) result }
{
    let mut sent = 0;
    while sent < bytes.len() {
        let (_gone, rest) = bytes.split_at(sent);
        match writer.write(rest) {
            Ok(n) => sent += n,
            Err(_) => return Err(WriteFault { sent }),
        }
    }
    Ok(())
}
