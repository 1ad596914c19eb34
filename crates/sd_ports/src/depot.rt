ghost use Rattle.std.specs.Prelude.{◌≡◌, ◌<◌, ◌^◌, ℕ, Option, None, Ok, IfOk, OnOk, OnErr, IsErrOf, []};
ghost use Rattle.sd_base.specs.Count.{HasCause, IsCaused, with_added};
ghost use Rattle.sd_ports.specs.Files.{ClosesFile, Files, IsFresh, IsNotThere, IsThere, LeavesPrefix};
ghost use Rattle.sd_ports.specs.Files.{OpensFile, port_in, with_bytes};
ghost use Rattle.sd_ports.specs.Causes.{CountsClosed, CountsMade, CountsOpen, HasDepotCause};

use crate::fault::DepotFault;
use crate::sink::Sink;
use crate::source::Source;
use std::alloc::Global;

/// Where files are.
pub trait Depot {
    type Inlet: Source;

    type Outlet: Sink;

    /// The files, where the depot tells them.
    ghost files: { Self → Option Files };

    /// The number of I/O errors, in the depot and in ports that were closed.
    ghost faults: { Self → ℕ };

    /// The number of I/O errors, without those at the closing of a file that was made, after which no work is left.
    ghost stops: { Self → ℕ };

    /// How often a file was asked for that isn't there.
    ghost misses: { Self → ℕ };

    /// How many files were made.
    ghost made: { Self → ℕ };

    /// How many ports are open, given and not closed, modulo 2^64.
    ghost opened: { Self → ℕ };

    /// How many calls were made.
    ghost calls: { Self → ℕ };

    /// Opens a file for reading.
    fn open_in(&mut self, alloc: Global, name: &str) -> Result<Self::Inlet, DepotFault>
        ensures files { files self.new ≡ files self.old }
        ensures opened { IfOk result (λ port. OpensFile (files self.old) name.now (Self.Inlet.left port)) }
        ensures fresh { IfOk result (λ port. Self.Inlet.faults port ≡ 0) }
        ensures not_there { IsErrOf result DepotFault.Missing → IsNotThere (files self.old) name.now }
        ensures cause { HasDepotCause (faults self.old) (faults self.new) (misses self.old) (misses self.new) result }
        ensures stops { IsCaused (stops self.old) (stops self.new) (IsErrOf result DepotFault.Failed) }
        ensures made { made self.new ≡ made self.old }
        ensures ports { CountsOpen (opened self.old) (opened self.new) result }
        ensures calls { calls self.new ≡ with_added (calls self.old) 1 };

    /// Makes an empty file, in place of one that had the name, and opens it for writing. `Missing` is a folder that
    /// isn't there.
    fn create_out(&mut self, alloc: Global, name: &str) -> Result<Self::Outlet, DepotFault>
        ensures files { OnOk result (files self.new ≡ with_bytes (files self.old) name.now []) }
        ensures unchanged { OnErr result (files self.new ≡ files self.old) }
        ensures empty { IfOk result (λ port. IsFresh (files self.old) (Self.Outlet.held port)) }
        ensures fresh { IfOk result (λ port. Self.Outlet.faults port ≡ 0) }
        ensures missing { IsErrOf result DepotFault.Missing → files self.old ≡ None }
        ensures cause { HasDepotCause (faults self.old) (faults self.new) (misses self.old) (misses self.new) result }
        ensures stops { IsCaused (stops self.old) (stops self.new) (IsErrOf result DepotFault.Failed) }
        ensures made { CountsMade (made self.old) (made self.new) result }
        ensures ports { CountsOpen (opened self.old) (opened self.new) result }
        ensures calls { calls self.new ≡ with_added (calls self.old) 1 };

    /// Makes a file that is new, and opens it for writing. `Ok(None)` is a name that is there already, as a file, a
    /// link or a folder: nothing changes then. `Missing` is a folder that isn't there.
    fn create_new(&mut self, alloc: Global, name: &str) -> Result<Option<Self::Outlet>, DepotFault>
        ensures new { OnOk (port_in result) (IsNotThere (files self.old) name.now) }
        ensures there { result ≡ Ok None → IsThere (files self.old) name.now }
        ensures files { OnOk (port_in result) (files self.new ≡ with_bytes (files self.old) name.now []) }
        ensures unchanged { OnErr (port_in result) (files self.new ≡ files self.old) }
        ensures empty { IfOk (port_in result) (λ port. IsFresh (files self.old) (Self.Outlet.held port)) }
        ensures fresh { IfOk (port_in result) (λ port. Self.Outlet.faults port ≡ 0) }
        ensures missing { IsErrOf result DepotFault.Missing → files self.old ≡ None }
        ensures cause { HasDepotCause (faults self.old) (faults self.new) (misses self.old) (misses self.new) result }
        ensures stops { IsCaused (stops self.old) (stops self.new) (IsErrOf result DepotFault.Failed) }
        ensures made { CountsMade (made self.old) (made self.new) (port_in result) }
        ensures ports { CountsOpen (opened self.old) (opened self.new) (port_in result) }
        ensures calls { calls self.new ≡ with_added (calls self.old) 1 };

    /// Closes a file, and takes over the port's count of faults.
    fn close_in(&mut self, port: Self::Inlet)
        ensures files { files self.new ≡ files self.old }
        ensures faults { faults self.new ≡ with_added (faults self.old) (Self.Inlet.faults port) }
        ensures stops { stops self.new ≡ with_added (stops self.old) (Self.Inlet.faults port) }
        ensures misses { misses self.new ≡ misses self.old }
        ensures within { faults self.old < 2 ^ 64 }
        ensures below { stops self.old < 2 ^ 64 }
        ensures made { made self.new ≡ made self.old }
        ensures ports { CountsClosed (opened self.old) (opened self.new) }
        ensures calls { calls self.new ≡ with_added (calls self.old) 1 };

    /// Closes a file that was made under this name, and takes over the port's count of faults. The only fault is
    /// `Failed`, for which the depot counts a fault of its own. On a machine, a file of `create_new` is on the disk
    /// then.
    fn close_out(&mut self, name: &str, port: Self::Outlet) -> Result<(), DepotFault>
        requires { IsThere (files self.old) name.now }
        ensures closed { OnOk result (ClosesFile (files self.old) (files self.new) name.now (Self.Outlet.held port)) }
        ensures prefix { LeavesPrefix (files self.old) (files self.new) name.now (Self.Outlet.held port) }
        ensures failed { OnErr result (IsErrOf result DepotFault.Failed) }
        ensures cause { HasCause (with_added (faults self.old) (Self.Outlet.faults port)) (faults self.new) result }
        ensures stops { stops self.new ≡ with_added (stops self.old) (Self.Outlet.faults port) }
        ensures within { faults self.old < 2 ^ 64 }
        ensures below { stops self.old < 2 ^ 64 }
        ensures misses { misses self.new ≡ misses self.old }
        ensures made { made self.new ≡ made self.old }
        ensures ports { CountsClosed (opened self.old) (opened self.new) }
        ensures calls { calls self.new ≡ with_added (calls self.old) 1 };
}
