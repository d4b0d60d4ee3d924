//! The standard streams of the process, as serving takes them.
ghost use Rattle.std.specs.Prelude.{◌≡◌, [], IfOk, IfErr};
ghost use Rattle.std.specs.Io.Buffered.{writer_buffer};
ghost use Rattle.org_fileset.specs.declared.open.OpenFault.TheVariants.{OutOfMemory};
ghost use Rattle.org_program.specs.declared.fault.Fault.TheVariants.{Open};

use crate::fault::Fault;
use org_serve::Counted;
use org_store::OpenFault;
use std::io::{BufWriter, Stdin, Stdout};

/// Standard input, from which nothing was read.
pub fn input(rt: &HostRuntime) -> Counted<Stdin>
    ensures reads { result.reads ≡ 0 }
    ensures failures { result.failures ≡ 0 }
{
    Counted::new(rt.stdin())
}

/// Standard output, with nothing written to it.
///
/// # Errors
///
/// `Open(OutOfMemory)` where there was no memory for its buffer.
pub fn output(rt: &HostRuntime) -> Result<Counted<BufWriter<Stdout>>, Fault>
    ensures empty { IfOk result (λ writer. writer_buffer writer.inner ≡ []) }
    ensures failures { IfOk result (λ writer. writer.failures ≡ 0) }
    ensures fault { IfErr result (λ fault. fault ≡ Open OutOfMemory) }
{
    match BufWriter::new(rt.alloc(), rt.stdout()) {
        Ok(writer) => Ok(Counted::new(writer)),
        Err(_) => Err(Fault::Open(OpenFault::OutOfMemory)),
    }
}
