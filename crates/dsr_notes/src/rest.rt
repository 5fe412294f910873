//! What remains to be noted of an event once it is done.

ghost use Rattle.dsr_run.specs.Step.{log_of};
ghost use Rattle.dsr_notes.specs.Noting.{Adds};
ghost use Rattle.dsr_notes.specs.Support.Rest.{CanRest, rest_notes};

use crate::closing::{Closing, note_closing};
use crate::note::Note;
use crate::notes::Notes;
use dsr_ledger::Reply;
use dsr_world::Stage;

/// What remains to be noted of an event once it is done.
#[derive(Clone, Copy)]
pub(crate) enum Rest {
    Nothing,
    /// The reply that a client accepts, if it accepts one.
    Reply,
    /// The round that a loyal replica closes.
    Close(Closing),
}

/// Notes what remained to be noted of an event, which was done in this stage; `reply` was accepted with it.
pub(crate) fn note_rest(stage: &Stage, rest: &Rest, reply: Option<Reply>, notes: &mut Notes)
    requires { CanRest stage.now.shape (log_of stage.now.run) rest.now }
    ensures { Adds notes.old notes.new (rest_notes stage.now.shape (log_of stage.now.run) reply rest.now) }
{
    match rest {
        Rest::Nothing => {}
        Rest::Reply => {
            if let Some(reply) = reply {
                notes.add(Note::Accepted { reply });
            }
        }
        Rest::Close(closing) => note_closing(stage, closing, notes),
    }
}
