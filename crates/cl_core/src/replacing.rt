//! What a client holds, put in the place of what it held. The drops of a framer, of a phase and of a session have many
//! branches: they stay in here, and those of the first two in calls of `drop`.
ghost use Rattle.std.specs.Prelude.{◌≡◌, Some};

use cl_handlers::Phase;
use sm_outbox::Session;
use std::mem;
use xml_framer::Framer;

/// Puts another framer, or none, in the place of one.
pub(crate) fn replace_framer(framer: &mut Option<Framer>, other: Option<Framer>)
    ensures { framer.new ≡ other }
{
    drop(mem::replace(framer, other));
}

/// Puts another phase in the place of one.
pub(crate) fn replace_phase(phase: &mut Phase, other: Phase)
    ensures { phase.new ≡ other }
{
    drop(mem::replace(phase, other));
}

/// Puts a session in the place of one, or of none.
pub(crate) fn put_session(place: &mut Option<Session>, session: Session)
    ensures { place.new ≡ Some session }
{
    *place = Some(session);
}
