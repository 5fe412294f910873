//! Runs: what replicas, clients and traitors do together; what a run is, its history, and the laws of its logs. No code.
#![tactic(auto)]

mod answered;
mod blind;
mod headline;
mod laws;
mod own;

pub use answered::{
    clients_are_answered_in_time, eager_replicas_answer, eager_replicas_answer_no_sooner,
    loyal_replicas_may_be_eager,
};
pub use blind::{loyal_actors_are_blind, traitors_may_be_loyal};
pub use headline::{
    clients_are_answered, clients_take_turns, history_linearizes, linearizations_keep_real_time,
    runs_are_linearizable, runs_are_right,
};
pub use laws::{
    boxes_hold_one_envelope, history_only_grows, limits_are_kept_in_runs, loyal_replicas_agree,
    loyal_replicas_sign_few_links, loyal_senders_values_are_decided, no_signature_is_forged,
    runs_agree, runs_go_on, runs_keep_conduct,
};
pub use own::{counters_are_kept, logs_are_right, own_logs_are_enough, posts_are_known};
