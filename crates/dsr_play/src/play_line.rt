ghost use Rattle.std.specs.Prelude.{◌≡◌, codes, Some, IfOk, IsOkUnless};
ghost use Rattle.std.specs.Option.{option_zip};
ghost use Rattle.dsr_base.specs.Reads.{Reads};
ghost use Rattle.dsr_names.specs.declared.actor.Actor.TheVariants.{Replica, Client};
ghost use Rattle.dsr_play.specs.PlayText.{line_text, line_rest, IsPlayLine};
ghost use Rattle.dsr_play.specs.Support.PlayParts.{IsLineOf, post_line, plant_line, take_line, tell_line, posts_line, plants_line, asks_line};
ghost use Rattle.dsr_play.specs.Support.PlayParts.{AreEnds, two_text, IsPosted, posted_text, IsChoice, choice_text, IsSaidPick, said_pick};
ghost use Rattle.dsr_play.specs.Support.PlayParts.{AreSpelledClients, clients_text, IsPlanted, planted_text, IsEnd, end_text};
ghost use Rattle.dsr_play.specs.Support.PlayParts.{IsPlantedForAll, planted_for_all_text};

use crate::choice::Choice;
use crate::event::Event;
use dsr_base::{Few, split_once};
use dsr_envelope::{Clients, Pick};
use dsr_names::{Actor, ClientId, Refusal, ReplicaId};
use dsr_request::Op;
use dsr_script::Draft;
use std::alloc::Global;

/// A line of a play: one event, or several that are written together.
#[derive(Drop)]
pub enum PlayLine {
    /// One event.
    One(Event),
    /// A replica's posts to each replica.
    Posts {
        /// The replica that posts.
        by: ReplicaId,
        /// What it chooses for its post to replica 0.
        pick: Choice,
    },
    /// The posts of each loyal replica to each replica.
    PostsAll,
    /// An envelope that a replica plants for each replica.
    Plants {
        /// The replica that posts.
        by: ReplicaId,
        /// The envelope that it posts.
        draft: Draft,
    },
    /// An actor's takes from each replica.
    Takes {
        /// The actor that takes.
        at: Actor,
    },
    /// The takes of each replica from each replica.
    TakesAll,
    /// A client's posts to each replica.
    Asks {
        /// The client that posts.
        by: ClientId,
        /// What it chooses for its post to replica 0.
        pick: Choice,
    },
    /// The takes of each replica from a client.
    Hears {
        /// The client from which they take.
        from: ClientId,
    },
    /// The posts of each loyal replica to a client.
    Replies {
        /// The client to which they post.
        to: ClientId,
    },
}

impl PlayLine {
    /// Reads a line's text, without its line feed. The inner `None` means exactly that the bytes are not one. `NoMemory` if memory runs out.
    pub fn read(alloc: Global, bytes: &[u8]) -> Result<Option<PlayLine>, Refusal>
        ensures read { IfOk result (λ line. Reads IsPlayLine line_text bytes.now line) }
        ensures refusal { IsOkUnless result Refusal.NoMemory }
    {
        match split_once(bytes, b' ') {
            None => Ok(None),
            Some((word, rest)) => read_rest(alloc, word, rest),
        }
    }
}

/// Reads the line that begins with this word, from the text after the word and a space.
fn read_rest(alloc: Global, word: &[u8], rest: &[u8]) -> Result<Option<PlayLine>, Refusal>
    ensures read { IfOk result (λ line. Reads (IsLineOf word.now) line_rest rest.now line) }
    ensures refusal { IsOkUnless result Refusal.NoMemory }
{
    if word == b"post".as_slice() {
        read_post(alloc, rest)
    } else if word == b"plant".as_slice() {
        read_plant(alloc, rest)
    } else if word == b"take".as_slice() {
        Ok(read_take(rest))
    } else if word == b"tell".as_slice() {
        Ok(read_tell(rest))
    } else if word == b"posts".as_slice() {
        read_posts(alloc, rest)
    } else if word == b"plants".as_slice() {
        read_plants(alloc, rest)
    } else if word == b"takes".as_slice() {
        Ok(read_takes(rest))
    } else if word == b"asks".as_slice() {
        read_asks(alloc, rest)
    } else if word == b"hears".as_slice() {
        Ok(read_hears(rest))
    } else if word == b"replies".as_slice() {
        Ok(read_replies(rest))
    } else {
        Ok(None)
    }
}

/// Reads a post, from the text after the line's word.
fn read_post(alloc: Global, rest: &[u8]) -> Result<Option<PlayLine>, Refusal>
    ensures read { IfOk result (Reads (IsLineOf (codes "post")) line_rest rest.now) }
    ensures refusal { IsOkUnless result Refusal.NoMemory }
{
    let line = post_line(alloc, read_posted(rest))?;
    Ok(line)
}

/// Makes the line with this post; `None` without one. `NoMemory` if memory runs out.
fn post_line(
    alloc: Global,
    posted: Option<(Actor, (Actor, Pick))>,
) -> Result<Option<PlayLine>, Refusal>
    ensures line { IfOk result (λ line. line ≡ post_line posted) }
    ensures refusal { IsOkUnless result Refusal.NoMemory }
{
    match posted {
        None => Ok(None),
        Some((from, (to, pick))) => {
            let pick = Choice::of(alloc, pick)?;
            Ok(Some(PlayLine::One(Event::Post { from, to, pick })))
        }
    }
}

/// Reads a planted envelope, from the text after the line's word.
fn read_plant(alloc: Global, rest: &[u8]) -> Result<Option<PlayLine>, Refusal>
    ensures read { IfOk result (Reads (IsLineOf (codes "plant")) line_rest rest.now) }
    ensures refusal { IsOkUnless result Refusal.NoMemory }
{
    let planted = read_planted(alloc, rest)?;
    Ok(plant_line(planted))
}

/// Makes the line with this planted envelope; `None` without one.
fn plant_line(planted: Option<(Actor, (Actor, Draft))>) -> Option<PlayLine>
    ensures { result ≡ plant_line planted }
{
    match planted {
        None => None,
        Some((from, (to, draft))) => Some(PlayLine::One(Event::Plant { from, to, draft })),
    }
}

/// Reads a take, from the text after the line's word.
fn read_take(rest: &[u8]) -> Option<PlayLine>
    ensures { Reads (IsLineOf (codes "take")) line_rest rest.now result }
{
    take_line(read_ends(rest))
}

/// Makes the line in which the first actor takes from the other; `None` without actors.
fn take_line(ends: Option<(Actor, Actor)>) -> Option<PlayLine>
    ensures { result ≡ take_line ends }
{
    match ends {
        None => None,
        Some((at, from)) => Some(PlayLine::One(Event::Take { at, from })),
    }
}

/// Reads the post of a seen front, from the text after the line's word.
fn read_tell(rest: &[u8]) -> Option<PlayLine>
    ensures { Reads (IsLineOf (codes "tell")) line_rest rest.now result }
{
    tell_line(read_ends(rest))
}

/// Makes the line in which the first actor posts its seen front to the other; `None` without actors.
fn tell_line(ends: Option<(Actor, Actor)>) -> Option<PlayLine>
    ensures { result ≡ tell_line ends }
{
    match ends {
        None => None,
        Some((from, to)) => Some(PlayLine::One(Event::Tell { from, to })),
    }
}

/// Reads the posts of replicas, from the text after the line's word.
fn read_posts(alloc: Global, rest: &[u8]) -> Result<Option<PlayLine>, Refusal>
    ensures read { IfOk result (Reads (IsLineOf (codes "posts")) line_rest rest.now) }
    ensures refusal { IsOkUnless result Refusal.NoMemory }
{
    if rest == b"*".as_slice() {
        return Ok(Some(PlayLine::PostsAll));
    }
    let line = posts_line(alloc, read_choice(rest))?;
    Ok(line)
}

/// Makes the line with the posts of this replica with this choice; `None` for a client, for a choice that only clients make, and
/// without a choice. `NoMemory` if memory runs out.
fn posts_line(alloc: Global, choice: Option<(Actor, Pick)>) -> Result<Option<PlayLine>, Refusal>
    ensures line { IfOk result (λ line. line ≡ posts_line choice) }
    ensures refusal { IsOkUnless result Refusal.NoMemory }
{
    match choice {
        None => Ok(None),
        Some((by, pick)) => match by {
            Actor::Replica(by) => replicas_line(alloc, by, pick),
            Actor::Client(_) => Ok(None),
        },
    }
}

/// Makes the line with the posts of this replica with this choice; `None` for a choice that only clients make. `NoMemory` if memory
/// runs out.
fn replicas_line(alloc: Global, by: ReplicaId, pick: Pick) -> Result<Option<PlayLine>, Refusal>
    ensures line { IfOk result (λ line. line ≡ posts_line (Some (Replica by, pick))) }
    ensures refusal { IsOkUnless result Refusal.NoMemory }
{
    if let Pick::Begin(_) = pick {
        return Ok(None);
    }
    let pick = Choice::of(alloc, pick)?;
    Ok(Some(PlayLine::Posts { by, pick }))
}

/// Reads an envelope planted for each replica, from the text after the line's word.
fn read_plants(alloc: Global, rest: &[u8]) -> Result<Option<PlayLine>, Refusal>
    ensures read { IfOk result (Reads (IsLineOf (codes "plants")) line_rest rest.now) }
    ensures refusal { IsOkUnless result Refusal.NoMemory }
{
    let planted = read_planted_for_all(alloc, rest)?;
    Ok(plants_line(planted))
}

/// Makes the line that plants this envelope for each replica; `None` without one.
fn plants_line(planted: Option<(ReplicaId, Draft)>) -> Option<PlayLine>
    ensures { result ≡ plants_line planted }
{
    match planted {
        None => None,
        Some((by, draft)) => Some(PlayLine::Plants { by, draft }),
    }
}

/// Reads takes from replicas, from the text after the line's word.
fn read_takes(rest: &[u8]) -> Option<PlayLine>
    ensures { Reads (IsLineOf (codes "takes")) line_rest rest.now result }
{
    if rest == b"*".as_slice() {
        Some(PlayLine::TakesAll)
    } else {
        Actor::read(rest).map(|at| PlayLine::Takes { at })
    }
}

/// Reads the posts of a client, from the text after the line's word.
fn read_asks(alloc: Global, rest: &[u8]) -> Result<Option<PlayLine>, Refusal>
    ensures read { IfOk result (Reads (IsLineOf (codes "asks")) line_rest rest.now) }
    ensures refusal { IsOkUnless result Refusal.NoMemory }
{
    let line = asks_line(alloc, read_choice(rest))?;
    Ok(line)
}

/// Makes the line with the posts of this client with this choice; `None` for a replica, for a choice that only replicas make, and
/// without a choice. `NoMemory` if memory runs out.
fn asks_line(alloc: Global, choice: Option<(Actor, Pick)>) -> Result<Option<PlayLine>, Refusal>
    ensures line { IfOk result (λ line. line ≡ asks_line choice) }
    ensures refusal { IsOkUnless result Refusal.NoMemory }
{
    match choice {
        None => Ok(None),
        Some((by, pick)) => match by {
            Actor::Client(by) => clients_line(alloc, by, pick),
            Actor::Replica(_) => Ok(None),
        },
    }
}

/// Makes the line with the posts of this client with this choice; `None` for a choice that only replicas make. `NoMemory` if memory
/// runs out.
fn clients_line(alloc: Global, by: ClientId, pick: Pick) -> Result<Option<PlayLine>, Refusal>
    ensures line { IfOk result (λ line. line ≡ asks_line (Some (Client by, pick))) }
    ensures refusal { IsOkUnless result Refusal.NoMemory }
{
    if let Pick::From(_) = pick {
        return Ok(None);
    }
    let pick = Choice::of(alloc, pick)?;
    Ok(Some(PlayLine::Asks { by, pick }))
}

/// Reads takes from a client, from the text after the line's word.
fn read_hears(rest: &[u8]) -> Option<PlayLine>
    ensures { Reads (IsLineOf (codes "hears")) line_rest rest.now result }
{
    ClientId::read(rest).map(|from| PlayLine::Hears { from })
}

/// Reads posts to a client, from the text after the line's word.
fn read_replies(rest: &[u8]) -> Option<PlayLine>
    ensures { Reads (IsLineOf (codes "replies")) line_rest rest.now result }
{
    ClientId::read(rest).map(|to| PlayLine::Replies { to })
}

/// Reads two actors.
fn read_ends(bytes: &[u8]) -> Option<(Actor, Actor)>
    ensures { Reads AreEnds two_text bytes.now result }
{
    match split_once(bytes, b' ') {
        None => None,
        Some((one, other)) => Actor::read(one).zip(Actor::read(other)),
    }
}

/// Reads the poster, the actor to which it posts, and its choice.
fn read_posted(bytes: &[u8]) -> Option<(Actor, (Actor, Pick))>
    ensures { Reads IsPosted posted_text bytes.now result }
{
    match split_once(bytes, b' ') {
        None => None,
        Some((from, rest)) => posted(Actor::read(from), read_choice(rest)),
    }
}

/// Returns the pair of both; `None` if one is missing.
fn posted(from: Option<Actor>, choice: Option<(Actor, Pick)>) -> Option<(Actor, (Actor, Pick))>
    ensures { result ≡ option_zip from choice }
{
    let from = from?;
    let choice = choice?;
    Some((from, choice))
}

/// Reads an actor, and the choice that is written after it.
fn read_choice(bytes: &[u8]) -> Option<(Actor, Pick)>
    ensures { Reads IsChoice choice_text bytes.now result }
{
    match split_once(bytes, b' ') {
        None => chosen(Actor::read(bytes), Some(Pick::Plain)),
        Some((actor, pick)) => chosen(Actor::read(actor), read_pick(pick)),
    }
}

/// Returns the pair of both; `None` if one is missing.
fn chosen(actor: Option<Actor>, pick: Option<Pick>) -> Option<(Actor, Pick)>
    ensures { result ≡ option_zip actor pick }
{
    let actor = actor?;
    let pick = pick?;
    Some((actor, pick))
}

/// Reads a choice that is not plain, like `from c0+c1` or `begin write a 5`.
fn read_pick(bytes: &[u8]) -> Option<Pick>
    ensures { Reads IsSaidPick said_pick bytes.now result }
{
    match split_once(bytes, b' ') {
        None => None,
        Some((word, rest)) => {
            if word == b"from".as_slice() {
                read_clients(rest).map(|clients| Pick::From(clients))
            } else if word == b"begin".as_slice() {
                Op::read(rest, b' ').map(|op| Pick::Begin(op))
            } else {
                None
            }
        }
    }
}

/// Reads clients, like `c0+c1`.
fn read_clients(bytes: &[u8]) -> Option<Clients>
    ensures { Reads AreSpelledClients clients_text bytes.now result }
{
    let list: Few<ClientId, 8> = Few::read(bytes)?;
    Clients::of(list.as_slice())
}

/// Reads the actor that plants, the actor to which it plants, and the envelope.
fn read_planted(alloc: Global, bytes: &[u8]) -> Result<Option<(Actor, (Actor, Draft))>, Refusal>
    ensures read { IfOk result (Reads IsPlanted planted_text bytes.now) }
    ensures refusal { IsOkUnless result Refusal.NoMemory }
{
    match split_once(bytes, b' ') {
        None => Ok(None),
        Some((from, rest)) => Ok(Actor::read(from).zip(read_end(alloc, rest)?)),
    }
}

/// Reads the actor to which an envelope is planted, and the envelope.
fn read_end(alloc: Global, bytes: &[u8]) -> Result<Option<(Actor, Draft)>, Refusal>
    ensures read { IfOk result (Reads IsEnd end_text bytes.now) }
    ensures refusal { IsOkUnless result Refusal.NoMemory }
{
    match split_once(bytes, b' ') {
        None => Ok(None),
        Some((to, draft)) => Ok(Actor::read(to).zip(Draft::read(alloc, draft)?)),
    }
}

/// Reads the replica that plants an envelope for each replica, and the envelope.
fn read_planted_for_all(alloc: Global, bytes: &[u8]) -> Result<Option<(ReplicaId, Draft)>, Refusal>
    ensures read { IfOk result (Reads IsPlantedForAll planted_for_all_text bytes.now) }
    ensures refusal { IsOkUnless result Refusal.NoMemory }
{
    match split_once(bytes, b' ') {
        None => Ok(None),
        Some((by, draft)) => Ok(ReplicaId::read(by).zip(Draft::read(alloc, draft)?)),
    }
}
