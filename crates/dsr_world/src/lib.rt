//! A stage: a node for each actor of a shape, a box from each to each, and the steps that events make, which are a run. A world keeps
//! the run too.
#![tactic(auto)]

mod blind;
mod entries;
mod first_nodes;
mod letters;
mod local_letter;
mod playing;
mod replies;
mod run_end;
mod stage;
mod steps;
mod world;

pub use blind::events_are_blind;
pub use dsr_play::{Event, MOST_EVENTS, Play};
pub use dsr_run::{
    boxes_hold_one_envelope, clients_are_answered, clients_take_turns, history_linearizes,
    history_only_grows, limits_are_kept_in_runs, linearizations_keep_real_time,
    loyal_actors_are_blind, loyal_replicas_agree, loyal_replicas_sign_few_links,
    loyal_senders_values_are_decided, no_signature_is_forged, runs_agree, runs_are_linearizable,
    runs_are_right, runs_go_on, runs_keep_conduct, traitors_may_be_loyal,
};
pub use playing::{Played, play_text};
pub use run_end::RunEnd;
pub use stage::Stage;
pub use world::World;
