//! Views: what a disk gives to read from.
ghost use Rattle.std.specs.Prelude.{◌≡◌, ◌+◌, ◌≤◌, IfSome, OnOk, OnErr, length, take, drop};
ghost use Rattle.lsm_io.specs.Causes.{Rose};
ghost use Rattle.lsm_disk.specs.Viewed.{Viewed};

/// A view could not be read.
#[derive(Clone, Copy, Debug, PartialEq, Eq)]
pub struct ViewFault;

/// The first bytes of a file, as they were when the view was opened. They never change, also
/// when the file's name is gone. A view counts its faults, and `Disk::close` takes it back.
pub trait View: Send + Drop {
    /// What is seen of the view: its bytes, where it tells them, its length, and its count of
    /// faults.
    ghost viewed: { Self → Viewed };

    /// How many bytes it has.
    fn len(&self) -> u64
        ensures { result ≡ (viewed self.now).len };

    /// Reads as many bytes as `into` has, from the place `at` on.
    fn read_at(&mut self, at: u64, into: &mut [u8]) -> Result<(), ViewFault>
        requires { at + length into.old ≤ (viewed self.old).len }
        ensures read { OnOk result (IfSome (viewed self.old).bytes (λ bytes. into.new ≡ take (length into.old) (drop at bytes))) }
        ensures bytes { (viewed self.new).bytes ≡ (viewed self.old).bytes }
        ensures len { (viewed self.new).len ≡ (viewed self.old).len }
        ensures later { (viewed self.old).faults ≤ (viewed self.new).faults }
        ensures cause { OnErr result (Rose (viewed self.old).faults (viewed self.new).faults) };
}
