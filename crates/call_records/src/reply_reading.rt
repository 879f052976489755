ghost use Rattle.std.specs.Prelude.{◌≡◌, ℕ, ◌*◌, ◌≤◌, ◌++◌, List, length, drop, IsNone, IfSome};
ghost use Rattle.std.specs.List.{flat_map};
ghost use Rattle.gl_numbers.specs.Bytes.{le32};
ghost use Rattle.call_records.specs.declared.replies.Value as Values;
ghost use Rattle.call_records.specs.declared.replies.Value.TheVariants.{Active};
ghost use Rattle.call_records.specs.declared.replies.Reply as Replied;
ghost use Rattle.call_records.specs.Replies.{tag_of, content_of, reply_encoding, IsValue, IsReply};

use crate::replies::{Reply, TAG_ACTIVE, TAG_LIST, TAG_NOTHING, TAG_NUMBER, TAG_TEXT, Value};
use gl_numbers::{NAME_BYTES, Name, WORDS, Words, u32_at};

/// Fills the words from the bytes' prefix.
fn take_words(bytes: &[u8], into: &mut [u32])
    requires { 4 * length into.old ≤ length bytes.now }
    ensures count { length into.new ≡ length into.old }
    ensures words { bytes.now ≡ flat_map le32 into.new ++ drop (4 * length into.new) bytes.now }
{
    for i in 0..into.len() {
        into[i] = u32_at(&bytes[4 * i..]);
    }
}

/// The list that begins the bytes, a length and then the words, and the number of its bytes.
fn list_at(bytes: &[u8]) -> Option<(Words, usize)>
    ensures list { IfSome result (λ r. bytes.now ≡ (le32 (length r.0) ++ flat_map le32 r.0) ++ drop r.1 bytes.now) }
    ensures size { IfSome result (λ r. r.1 ≡ length (le32 (length r.0) ++ flat_map le32 r.0)) }
    ensures none { IsNone result → (words rest : List ℕ) → length words ≤ 16
        → bytes.now ≡ (le32 (length words) ++ flat_map le32 words) ++ rest → ⊥ }
{
    if bytes.len() < 4 {
        return None;
    }
    let count = u32_at(bytes) as usize;
    let rest = &bytes[4..];
    if count > WORDS {
        return None;
    }
    if rest.len() < 4 * count {
        return None;
    }
    let mut held = [0u32; 16];
    take_words(rest, &mut held[..count]);
    let Some(words) = Words::new(&held[..count]) else {
        return None;
    };
    Some((words, 4 + 4 * count))
}

/// The name that begins the bytes, a length and then the text, and the number of its bytes.
fn name_at(bytes: &[u8]) -> Option<(Name, usize)>
    ensures name { IfSome result (λ r. bytes.now ≡ (le32 (length r.0) ++ r.0) ++ drop r.1 bytes.now) }
    ensures size { IfSome result (λ r. r.1 ≡ length (le32 (length r.0) ++ r.0)) }
    ensures none { IsNone result → (name rest : List ℕ) → length name ≤ 256 → bytes.now ≡ (le32 (length name) ++ name) ++ rest → ⊥ }
{
    if bytes.len() < 4 {
        return None;
    }
    let count = u32_at(bytes) as usize;
    let rest = &bytes[4..];
    if count > NAME_BYTES {
        return None;
    }
    if rest.len() < count {
        return None;
    }
    let Some(name) = Name::new(&rest[..count]) else {
        return None;
    };
    Some((name, 4 + count))
}

/// The active attribute or uniform that begins the bytes, and the number of its bytes.
#[tactic(auto, using(crate::proofs::ReplyPrefixes::two_prefix))]
fn active_at(bytes: &[u8]) -> Option<(Value, usize)>
    ensures value { IfSome result (λ r. (tag_of r.0 ≡ TAG_ACTIVE) × (bytes.now ≡ content_of r.0 ++ drop r.1 bytes.now)) }
    ensures size { IfSome result (λ r. r.1 ≡ length (content_of r.0)) }
    ensures none { IsNone result → (size kind : ℕ) (name rest : List ℕ) → length name ≤ 256
        → bytes.now ≡ content_of (Active size kind name) ++ rest → ⊥ }
{
    if bytes.len() < 8 {
        return None;
    }
    let size = u32_at(bytes);
    let kind = u32_at(&bytes[4..]);
    let Some((name, count)) = name_at(&bytes[8..]) else {
        return None;
    };
    Some((Value::Active { size, kind, name }, 8 + count))
}

/// The value with this tag that begins the bytes, and the number of its bytes.
fn value_at(tag: u32, bytes: &[u8]) -> Option<(Value, usize)>
    ensures value { IfSome result (λ r. (tag_of r.0 ≡ tag) × (bytes.now ≡ content_of r.0 ++ drop r.1 bytes.now)) }
    ensures size { IfSome result (λ r. r.1 ≡ length (content_of r.0)) }
    ensures none { IsNone result → (value : Values.Value) (rest : List ℕ) → IsValue value → tag_of value ≡ tag
        → bytes.now ≡ content_of value ++ rest → ⊥ }
{
    match tag {
        TAG_NOTHING => Some((Value::Nothing, 0)),
        TAG_NUMBER => {
            if bytes.len() < 4 {
                return None;
            }
            Some((Value::Number(u32_at(bytes)), 4))
        }
        TAG_LIST => {
            let Some((words, count)) = list_at(bytes) else {
                return None;
            };
            Some((Value::List(words), count))
        }
        TAG_TEXT => {
            let Some((name, count)) = name_at(bytes) else {
                return None;
            };
            Some((Value::Text(name), count))
        }
        TAG_ACTIVE => active_at(bytes),
        _ => None,
    }
}

/// The reply that begins the bytes (this project's own format), and the number of its bytes. None exactly where
/// no reply begins them: its tag is none of the five, it has more than 16 words or a text of more than 256
/// bytes, or the bytes end before it does.
#[tactic(auto, using(crate::proofs::ReplyPrefixes::two_prefix))]
pub fn read_reply(bytes: &[u8]) -> Option<(Reply, usize)>
    ensures reply { IfSome result (λ r. bytes.now ≡ reply_encoding r.0 ++ drop r.1 bytes.now) }
    ensures size { IfSome result (λ r. r.1 ≡ length (reply_encoding r.0)) }
    ensures none { IsNone result → (reply : Replied.Reply) (rest : List ℕ) → IsReply reply → bytes.now ≡ reply_encoding reply ++ rest → ⊥ }
{
    if bytes.len() < 8 {
        return None;
    }
    let raised = u32_at(bytes);
    let tag = u32_at(&bytes[4..]);
    let Some((value, count)) = value_at(tag, &bytes[8..]) else {
        return None;
    };
    Some((Reply { raised, value }, 8 + count))
}
