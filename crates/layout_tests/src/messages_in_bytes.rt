// The layout of messages, byte by byte: the numbers of an example, and which changes of a kind, a byte or the length are still a message.
use faults::Fault;
use layouts::{decode, encode};
use messages::Message;
use std::process::Abort;

const ADD: Message = Message::AddItem {
    to: 8,
    replica: 1,
    place: 5,
    stamp: 1,
    value: 77,
};

const ADD_BYTES: [u8; 22] = [
    3, 1, 0, 8, 0, 0, 0, 5, 0, 0, 0, 0, 0, 1, 0, 0, 0, 0, 0, 0, 0, 77,
];

const GET: Message = Message::GetItem {
    to: 258,
    replica: 2,
    place: 772,
    question: 16_909_060,
};

const RETRIEVE: Message = Message::RetrieveItems {
    to: 1,
    from: 2,
    start: 3,
    end: 4,
};

const REPLICATE: Message = Message::Replicate {
    to: 65_535,
    from: 256,
    start: 255,
    end: 1,
};

// The bytes that each kind names, besides its own number.
const OF_AN_ARC: [bool; 22] = [
    false, false, true, true, true, true, true, true, true, true, false, false, false, false,
    false, false, false, false, false, false, false, false,
];

const OF_A_PLACE: [bool; 22] = [
    false, true, true, true, false, false, true, true, false, false, true, true, true, true, false,
    false, false, false, false, false, false, false,
];

const OF_A_COPY: [bool; 22] = [
    false, true, true, true, false, false, true, true, false, false, true, true, true, true, true,
    true, true, true, true, true, true, true,
];

// Every change of one byte decodes just when the kind names that byte, and then to what has that form.
fn check_each_byte(rt: &impl Abort, message: Message, named: &[bool; 22]) {
    let form = encode(message);
    for (i, is_named) in named.iter().enumerate().skip(1) {
        for change in 1..=255u8 {
            let mut bytes = form;
            bytes[i] ^= change;
            assert_eq!(rt; decode(&bytes).is_ok(), *is_named);
            if let Ok(other) = decode(&bytes) {
                assert!(rt; encode(other) == bytes);
            }
        }
    }
}

// Only its own number and that of a kind that names as much will do.
fn check_each_kind(rt: &impl Abort, message: Message, own: u8, other: u8) {
    let form = encode(message);
    for kind in 0..=255u8 {
        let mut bytes = form;
        bytes[0] = kind;
        assert_eq!(rt; decode(&bytes).is_ok(), kind == own || kind == other);
    }
}

#[test]
fn the_example(rt: HostRuntime) {
    assert!(rt; encode(ADD) == ADD_BYTES);
    assert_eq!(rt; decode(&ADD_BYTES), Ok(ADD));
}

#[test]
fn messages_come_back(rt: HostRuntime) {
    assert_eq!(rt; decode(&encode(GET)), Ok(GET));
    assert_eq!(rt; decode(&encode(RETRIEVE)), Ok(RETRIEVE));
    assert_eq!(rt; decode(&encode(REPLICATE)), Ok(REPLICATE));
}

#[test]
fn each_byte_changed(rt: HostRuntime) {
    check_each_byte(&rt, RETRIEVE, &OF_AN_ARC);
    check_each_byte(&rt, REPLICATE, &OF_AN_ARC);
    check_each_byte(&rt, ADD, &OF_A_COPY);
    check_each_byte(&rt, GET, &OF_A_PLACE);
}

#[test]
fn each_kind(rt: HostRuntime) {
    check_each_kind(&rt, RETRIEVE, 1, 2);
    check_each_kind(&rt, REPLICATE, 2, 1);
    check_each_kind(&rt, ADD, 3, 3);
    // an ADDITEM of value 0 has the fields of a GETITEM
    check_each_kind(&rt, GET, 4, 3);
}

#[test]
fn lengths_from_0_to_44(rt: HostRuntime) {
    let twice: [u8; 44] = [
        3, 1, 0, 8, 0, 0, 0, 5, 0, 0, 0, 0, 0, 1, 0, 0, 0, 0, 0, 0, 0, 77, 3, 1, 0, 8, 0, 0, 0, 5,
        0, 0, 0, 0, 0, 1, 0, 0, 0, 0, 0, 0, 0, 77,
    ];
    for n in 0..45 {
        assert_eq!(rt; decode(&twice[0..n]).is_ok(), n == 22);
    }
    assert_eq!(rt; decode(&twice[0..21]), Err(Fault::Bytes));
    assert_eq!(rt; decode(&twice[0..22]), Ok(ADD));
}
