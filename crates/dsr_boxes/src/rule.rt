//! The rule that every step keeps, and what each step tells the pass that makes it.

use crate::parcel::Parcel;
use crate::view::View;
use atomic_table::{Join, Play, Seat, Split, Table, TableRule};
use dsr_names::Shape;
use std::alloc::Global;

/// The rule: there are logs of a run, which are in the views of all passes, and each box agrees
/// with them.
pub struct BoxRule;

impl TableRule<Option<Parcel>, View, Shape> for BoxRule {
    ghost use Rattle.dsr_boxes.specs.Rule.{Kept, first_view};

    ghost holds = { Kept };

    ghost first = { first_view };
}

/// The words and slots of all boxes.
pub(crate) type Memory = Table<Option<Parcel>, View, Shape, BoxRule, Global>;

/// The token that a pass uses to make its steps.
pub(crate) type Token = Seat<Option<Parcel>, View>;

/// What a claim tells its pass.
pub(crate) struct Claim;

impl Play<Option<Parcel>, View> for Claim {
    ghost use Rattle.dsr_boxes.specs.Play.{Claims};

    ghost then = { Claims };
}

/// What a publish tells its pass.
pub(crate) struct Publish;

impl Play<Option<Parcel>, View> for Publish {
    ghost use Rattle.dsr_boxes.specs.Play.{Publishes};

    ghost then = { Publishes };
}

/// What a fetch tells its pass.
pub(crate) struct Fetch;

impl Play<Option<Parcel>, View> for Fetch {
    ghost use Rattle.dsr_boxes.specs.Play.{Fetches};

    ghost then = { Fetches };
}

/// What a release tells its pass.
pub(crate) struct Release;

impl Play<Option<Parcel>, View> for Release {
    ghost use Rattle.dsr_boxes.specs.Play.{Releases};

    ghost then = { Releases };
}

/// What the last look tells the pass that has all logs.
pub(crate) struct Learn;

impl Play<Option<Parcel>, View> for Learn {
    ghost use Rattle.dsr_boxes.specs.Play.{Learns};

    ghost then = { Learns };
}

/// What a look tells a new pass that represents nobody.
pub(crate) struct Enter;

impl Play<Option<Parcel>, View> for Enter {
    ghost use Rattle.dsr_boxes.specs.Play.{Enters};

    ghost then = { Enters };
}

/// How the pass of the highest place is split from the pass of all places up to it.
pub(crate) struct Deal;

impl Split<View> for Deal {
    ghost use Rattle.dsr_boxes.specs.Play.{without_last, last_alone};

    ghost left = { without_last };

    ghost right = { last_alone };
}

/// How the pass of the next place is joined to those that came back.
pub(crate) struct Gather;

impl Join<View> for Gather {
    ghost use Rattle.dsr_boxes.specs.Play.{with_next, spent};

    ghost both = { with_next };

    ghost spent = { spent };
}

/// What a look tells a new moment.
pub(crate) struct Look;

impl Play<Option<Parcel>, View> for Look {
    ghost use Rattle.dsr_boxes.specs.Play.{Looks};

    ghost then = { Looks };
}

/// What a look tells an actor about the present moment.
pub(crate) struct Remember;

impl Play<Option<Parcel>, View> for Remember {
    ghost use Rattle.dsr_boxes.specs.Play.{Remembers};

    ghost then = { Remembers };
}

/// What a look tells an actor that was shown a past moment.
pub(crate) struct Compare;

impl Play<Option<Parcel>, View> for Compare {
    ghost use Rattle.dsr_boxes.specs.Play.{Compares};

    ghost then = { Compares };
}

/// What a look tells a token that knows past moments.
pub(crate) struct Meet;

impl Play<Option<Parcel>, View> for Meet {
    ghost use Rattle.dsr_boxes.specs.Play.{Meets};

    ghost then = { Meets };
}

/// What the last look tells the token that has all logs and knows a past moment.
pub(crate) struct LearnAll;

impl Play<Option<Parcel>, View> for LearnAll {
    ghost use Rattle.dsr_boxes.specs.Play.{LearnsAll};

    ghost then = { LearnsAll };
}

/// How the moment that an actor knows is split from its pass.
pub(crate) struct Show;

impl Split<View> for Show {
    ghost use Rattle.dsr_boxes.specs.Play.{forgetful, moment_alone};

    ghost left = { forgetful };

    ghost right = { moment_alone };
}

/// How a moment is copied.
pub(crate) struct Copy;

impl Split<View> for Copy {
    ghost use Rattle.dsr_boxes.specs.Play.{as_it_is, moment_alone};

    ghost left = { as_it_is };

    ghost right = { moment_alone };
}

/// How an actor is shown a moment.
pub(crate) struct Recall;

impl Join<View> for Recall {
    ghost use Rattle.dsr_boxes.specs.Play.{reminded, spent};

    ghost both = { reminded };

    ghost spent = { spent };
}

/// How a moment, or the token that represents all logs, is shown another moment.
pub(crate) struct Remind;

impl Join<View> for Remind {
    ghost use Rattle.dsr_boxes.specs.Play.{with_moment, spent};

    ghost both = { with_moment };

    ghost spent = { spent };
}
