ghost use Rattle.std.specs.Prelude.{◌≡◌, ◌<◌, ◌≤◌, ◌↔◌, Some, length, slice_get, IfOk, IfSome, IfNone, IsOkUnless, IsTrue};
ghost use Rattle.dsr_desk.specs.Links.{started, extended, signatures_of, AreLinks, StandsOff};
ghost use Rattle.dsr_desk.specs.declared.statement.Statement.TheVariants.{Link};

use crate::keys::{Key, Signature};
use crate::shared_content::SharedContent;
use crate::signers::Signers;
use crate::statement::Statement;
use dsr_names::Refusal;
use dsr_request::Requests;
use std::alloc::Global;
use std::marker::Model;

/// Signatures that were put one after another on one content of a slot, each on the link that fits its place. They take little
/// room, whatever their number: the slot and the content are stored once, beside the signers. Only keys and signatures make
/// them.
#[derive(Drop)]
pub struct Links {
    slot: u64,
    content: SharedContent,
    signers: Signers,
}

impl Model for Links {
    ghost use Rattle.dsr_desk.specs.Links.{Links};

    ghost Value = { Links };

    ghost view = { λ l. record { slot = l.slot; content = l.content; signers = l.signers } };
}

impl Links {
    /// Makes the key's signature alone on this content of the slot. `NoMemory` if memory runs out.
    pub fn start(
        alloc: Global,
        slot: u64,
        content: &Option<Requests>,
        key: &Key,
    ) -> Result<Links, Refusal>
        ensures started { IfOk result (λ links. links ≡ started slot content.now key.now) }
        ensures refusal { IsOkUnless result Refusal.NoMemory }
    {
        let mut signers = Signers::new();
        signers.push(key.signer());
        let content = SharedContent::of(alloc, content)?;
        Ok(Links {
            slot,
            content,
            signers,
        })
    }

    /// Makes these signatures and one more after them, the key's. The content is shared. Requires that they are fewer than 16.
    /// `NoMemory` if one more handle is refused.
    pub fn extend(&self, key: &Key) -> Result<Links, Refusal>
        requires { length self.now.signers < 16 }
        ensures extended { IfOk result (λ links. links ≡ extended self.now key.now) }
        ensures refusal { IsOkUnless result Refusal.NoMemory }
    {
        let mut signers = self.signers;
        signers.push(key.signer());
        let content = self.content.try_share()?;
        Ok(Links {
            slot: self.slot,
            content,
            signers,
        })
    }

    /// Makes links of these signatures, if each is on the link of this slot and content that fits its place; else returns `None`.
    /// Requires at most 16. `NoMemory` if memory runs out.
    pub fn of(
        alloc: Global,
        slot: u64,
        content: &Option<Requests>,
        signatures: &[Signature],
    ) -> Result<Option<Links>, Refusal>
        requires { length signatures.now ≤ 16 }
        ensures same { IfOk result (λ made. IfSome made (λ links. AreLinks slot content.now signatures.now links)) }
        ensures none { IfOk result (λ made. IfNone made (StandsOff slot content.now signatures.now)) }
        ensures refusal { IsOkUnless result Refusal.NoMemory }
    {
        let mut before = Signers::new();
        for signature in signatures {
            if !is_on_link(signature, slot, content, &before) {
                return Ok(None);
            }
            before.push(signature.signer());
        }
        let content = SharedContent::of(alloc, content)?;
        Ok(Some(Links {
            slot,
            content,
            signers: before,
        }))
    }

    /// Returns the signers, in the order in which they signed.
    pub fn signers(&self) -> Signers
        ensures { result ≡ self.now.signers }
    {
        self.signers
    }

    /// Returns the signature at `place`, counted from 0. Requires that there is one.
    pub fn signature(&self, place: usize) -> Signature
        requires { place < length self.now.signers }
        ensures { slice_get (signatures_of self.now) place ≡ Some result }
    {
        let signers = self.signers.as_slice();
        let mut before = Signers::new();
        for signer in &signers[..place] {
            before.push(*signer);
        }
        let link = Statement::Link {
            slot: self.slot,
            value: self.content.content(),
            before,
        };
        Signature::by(signers[place], link)
    }
}

/// Returns whether the signature is on the link of this slot and content after these signers.
fn is_on_link(
    signature: &Signature,
    slot: u64,
    content: &Option<Requests>,
    before: &Signers,
) -> bool
    ensures { IsTrue result ↔ (signature.now.statement ≡ Link slot content.now before.now) }
{
    match signature.statement() {
        Statement::Ask(_) => false,
        Statement::Link {
            slot: signed_slot,
            value,
            before: signers,
        } => *signed_slot == slot && is_content(value, content) && signers.same(before),
    }
}

/// Returns whether two contents are equal: the same requests in the same order, or both idle.
fn is_content(value: &Option<Requests>, content: &Option<Requests>) -> bool
    ensures { IsTrue result ↔ (value.now ≡ content.now) }
{
    match (value, content) {
        (None, None) => true,
        (Some(ours), Some(theirs)) => ours.same(theirs),
        _ => false,
    }
}
