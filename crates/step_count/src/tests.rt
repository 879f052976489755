ghost use Rattle.std.specs.Prelude.{◌≡◌};

use crate::{BLOCK_BYTES, Bytes, Steps};
use std::marker::Brand;
use std::process::Abort;
use std::sync::ledger::{Blank, Ledger};
use std::test::Fail;

/// Reads 130 bytes by the block, with a counter over `L`.
fn read_blocks<L: Ledger>(rt: &impl Abort, blank: Blank)
    requires name { blank.name ≡ L.name }
    requires parts { blank.parts ≡ L.parts }
    requires two { L.parts ≡ 2 }
{
    let mut held = [7u8; 130];
    held[0] = 1;
    held[63] = 2;
    held[64] = 3;
    held[129] = 4;
    let bytes = Bytes::new(&held);
    let mut steps = Steps::<L>::start(blank);
    assert_eq!(rt; bytes.len(), 130);
    assert!(rt; !bytes.is_empty());
    let first = bytes.block(0, &mut steps);
    assert_eq!(rt; first.len(), BLOCK_BYTES);
    assert_eq!(rt; first.first(), Some(&1));
    assert_eq!(rt; first.last(), Some(&2));
    let second = bytes.block(1, &mut steps);
    assert_eq!(rt; second.len(), BLOCK_BYTES);
    assert_eq!(rt; second.first(), Some(&3));
    let third = bytes.block(2, &mut steps);
    assert_eq!(rt; third, [7u8, 4].as_slice());
}

#[test]
fn a_block_has_64_bytes_or_what_is_left(rt: HostRuntime) {
    read_blocks::<Brand>(&rt, Blank::new(2));
}

#[test]
fn no_bytes_are_empty(rt: HostRuntime) {
    let none = Bytes::new(&[]);
    assert_eq!(rt; none.len(), 0);
    assert!(rt; none.is_empty());
}

#[test]
fn debug_shows_the_length_alone(rt: HostRuntime) -> Result<(), Fail> {
    let text = format!(in rt.alloc(); "{:?}", Bytes::new(&[7, 8, 9]))?;
    assert_eq!(rt; text.as_str(), "Bytes(3)");
    Ok(())
}
