// A list of a desk's catalogue.
ghost use Rattle.std.specs.Prelude.{◌≡◌, true, false};
ghost use Rattle.dict_proto.specs.Streams.{change};
ghost use Rattle.app_words.specs.Writing.{IsUntouched};
ghost use Rattle.app_words.specs.declared.fault.StoreFault.TheVariants as store_faults;
ghost use Rattle.app_words.specs.Listed.{IsListed};

use crate::fault::ProgramFault;
use crate::listing::put_list;
use dict_desk::Lookup;
use dict_proto::Sink;

/// Writes a line for each item of a desk's catalogue, in order.
pub fn list<D: Lookup, W: Sink>(desk: &D, writer: &mut W) -> Result<(), ProgramFault<'static>>
    ensures listed { D.is_closed desk.now ≡ false → IsListed (D.shows desk.now) result (change W.stream writer.old writer.new) }
    ensures closed { D.is_closed desk.now ≡ true → (result ≡ Err (ProgramFault.Store store_faults.Closed)) × IsUntouched (change W.stream writer.old writer.new) }
{
    match desk.summary() {
        Ok(summary) => match put_list(writer, &summary.items) {
            Ok(()) => Ok(()),
            Err(_) => Err(ProgramFault::CannotWrite),
        },
        Err(fault) => Err(ProgramFault::from(fault)),
    }
}
