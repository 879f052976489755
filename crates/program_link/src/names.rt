ghost use Rattle.std.specs.Prelude.{◌≡◌, ◌≤◌, ◌++◌, IfOk, OnOk, vec_len};
ghost use Rattle.program_link.specs.Flattening.{element_name, member_name};
ghost use Rattle.program_link.specs.Kept.{kept_part};

use glsl_tree::Text;
use std::alloc::{AllocError, Global};
use std::marker::Model;

/// How many bytes of a name are kept while uniforms are flattened: one more than an active name may have, so that a name that
/// was cut is still too long.
const KEPT_BYTES: usize = 257;

/// A name as far as it is kept, seen as the list of its bytes.
#[derive(Drop)]
pub(crate) struct KeptName {
    bytes: Vec<u8>,
}

impl Model for KeptName {
    ghost use Rattle.std.specs.Prelude.{◌≤◌, ℕ, List, vec_len};

    ghost Value = { List ℕ };

    ghost view = { λ n. n.bytes.items };

    ghost invariant = { λ n. vec_len n.bytes ≤ 257 };
}

#[tactic(auto, using(crate::proofs::KeptNames::of_kept))]
impl KeptName {
    /// A name, as far as it is kept.
    pub(crate) fn of(alloc: Global, name: &[u8]) -> Result<KeptName, AllocError>
        ensures { IfOk result (λ kept. kept ≡ kept_part name.now) }
    {
        let bytes = Vec::from_slice(alloc, &name[..name.len().min(KEPT_BYTES)])?;
        Ok(KeptName { bytes })
    }

    /// The name of a member, as far as it is kept.
    pub(crate) fn member(alloc: Global, name: &[u8], field: &[u8]) -> Result<KeptName, AllocError>
        ensures { IfOk result (λ kept. kept ≡ kept_part (member_name name.now field.now)) }
    {
        let mut bytes = Vec::new(alloc);
        add(&mut bytes, name)?;
        add(&mut bytes, b".")?;
        add(&mut bytes, field)?;
        Ok(KeptName { bytes })
    }

    /// The name of an element, as far as it is kept.
    pub(crate) fn element(alloc: Global, name: &[u8], place: u32) -> Result<KeptName, AllocError>
        ensures { IfOk result (λ kept. kept ≡ kept_part (element_name name.now place)) }
    {
        let element = element_name(alloc, name, place)?;
        KeptName::of(alloc, element.as_slice())
    }

    /// Its bytes.
    pub(crate) fn as_slice(&self) -> &[u8]
        ensures { result.now ≡ self.now }
    {
        self.bytes.as_slice()
    }

    /// The text of the part that is kept; it takes no memory.
    pub(crate) fn into_text(self) -> Text
        ensures value { result ≡ self }
        ensures kept { kept_part result ≡ result }
    {
        let KeptName { bytes } = self;
        Text::from_vec(bytes)
    }
}

/// Adds bytes to a name, as far as they are kept.
#[tactic(auto, using(crate::proofs::KeptNames::of_kept))]
fn add(name: &mut Vec<u8>, bytes: &[u8]) -> Result<(), AllocError>
    requires { vec_len name.old ≤ 257 }
    ensures kept { OnOk result (name.new.items ≡ kept_part (name.old.items ++ bytes.now)) }
    ensures within { vec_len name.new ≤ 257 }
{
    let room = KEPT_BYTES - name.len().min(KEPT_BYTES);
    name.extend_from_slice(&bytes[..bytes.len().min(room)])
}

/// The name of an element of an array.
pub(crate) fn element_name(alloc: Global, name: &[u8], place: u32) -> Result<Vec<u8>, AllocError>
    ensures { IfOk result (λ element. element.items ≡ element_name name.now place) }
{
    let suffix = format!(in alloc; "[{place}]")?;
    let mut element = Vec::from_slice(alloc, name)?;
    element.extend_from_slice(suffix.as_bytes())?;
    Ok(element)
}
