use crate::{Reply, Value, read_reply, write_reply};
use gl_numbers::{Name, Words};
use std::test::Fail;
use wire_io::MemSink;

#[test]
fn each_kind_of_reply_is_written(rt: HostRuntime) -> Result<(), Fail> {
    let words = Words::new(&[1, 2, 300, 0x8000_0000]).ok_or("words")?;
    let name = Name::new(b"ab").ok_or("name")?;
    let cases: [(u32, Value, &[u8]); 5] = [
        (0x0502, Value::Nothing, &[2, 5, 0, 0, 0, 0, 0, 0]),
        (
            0,
            Value::Number(0x0500),
            &[0, 0, 0, 0, 1, 0, 0, 0, 0, 5, 0, 0],
        ),
        (
            0,
            Value::List(words),
            &[
                0, 0, 0, 0, 2, 0, 0, 0, 4, 0, 0, 0, 1, 0, 0, 0, 2, 0, 0, 0, 44, 1, 0, 0, 0, 0, 0,
                0x80,
            ],
        ),
        (
            0,
            Value::Text(name),
            &[0, 0, 0, 0, 3, 0, 0, 0, 2, 0, 0, 0, 97, 98],
        ),
        (
            0,
            Value::Active {
                size: 3,
                kind: 0x8B51,
                name,
            },
            &[
                0, 0, 0, 0, 4, 0, 0, 0, 3, 0, 0, 0, 0x51, 0x8B, 0, 0, 2, 0, 0, 0, 97, 98,
            ],
        ),
    ];
    for (raised, value, bytes) in cases {
        let reply = Reply { raised, value };
        let mut out = MemSink::new(vec![in rt.alloc(); 0; 64]?, Vec::new(rt.alloc()));
        assert_eq!(rt; write_reply(&reply, &mut out).is_ok(), true);
        assert!(rt; out.bytes() == bytes, "{value:?}");
        let mut full = MemSink::new(vec![in rt.alloc(); 0; 7]?, Vec::new(rt.alloc()));
        assert_eq!(rt; write_reply(&reply, &mut full).is_err(), true);
        assert_eq!(rt; full.bytes().len(), 7);
        assert!(rt; bytes.starts_with(full.bytes()), "{value:?}");
    }
    Ok(())
}

#[test]
fn each_kind_of_reply_is_read(rt: HostRuntime) -> Result<(), Fail> {
    let words = Words::new(&[1, 300]).ok_or("words")?;
    let name = Name::new(b"ab").ok_or("name")?;
    let active = Value::Active {
        size: 3,
        kind: 0x8B51,
        name,
    };
    let cases: [(u32, Value, &[u8]); 5] = [
        (0x0502, Value::Nothing, &[2, 5, 0, 0, 0, 0, 0, 0]),
        (0, Value::Number(7), &[0, 0, 0, 0, 1, 0, 0, 0, 7, 0, 0, 0]),
        (
            0,
            Value::List(words),
            &[0, 0, 0, 0, 2, 0, 0, 0, 2, 0, 0, 0, 1, 0, 0, 0, 44, 1, 0, 0],
        ),
        (
            0,
            Value::Text(name),
            &[0, 0, 0, 0, 3, 0, 0, 0, 2, 0, 0, 0, 97, 98],
        ),
        (
            0,
            active,
            &[
                0, 0, 0, 0, 4, 0, 0, 0, 3, 0, 0, 0, 0x51, 0x8B, 0, 0, 2, 0, 0, 0, 97, 98,
            ],
        ),
    ];
    for (raised, value, bytes) in cases {
        let mut more = bytes.to_vec(rt.alloc())?;
        more.push(9)?;
        let read = read_reply(&more);
        assert!(rt;
            read == Some((Reply { raised, value }, bytes.len())),
            "{value:?}"
        );
        for cut in 0..bytes.len() {
            assert!(rt;
                read_reply(&bytes[..cut]).is_none(),
                "{value:?} cut at {cut}"
            );
        }
    }
    let mut long = [0u8; 300];
    long[4] = 2;
    long[8] = 16;
    assert!(rt; read_reply(&long).is_some());
    long[8] = 17;
    assert!(rt; read_reply(&long).is_none());
    long[4] = 3;
    long[8] = 0;
    long[9] = 1;
    assert!(rt; read_reply(&long).is_some());
    long[8] = 1;
    assert!(rt; read_reply(&long).is_none());
    long[4] = 4;
    long[17] = 1;
    assert!(rt; read_reply(&long).is_some());
    long[16] = 1;
    assert!(rt; read_reply(&long).is_none());
    long[4] = 5;
    assert!(rt; read_reply(&long).is_none());
    Ok(())
}
