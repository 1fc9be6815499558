//! The reader of train files over tables of texts.

use force_table::SpeedTable;
use std::alloc::{AllocError, Global};
use std::test::Fail;
use train_file::{Key, Train, TrainFault, read_train};

/// A train file, line by line.
const LINES: [&[u8]; 7] = [
    b"mass = 1000\n",
    b"inertia = 1100\n",
    b"a = 1000\n",
    b"b = 20\n",
    b"c = 3\n",
    b"traction = [[0, 51000], [1000, 50000]]\n",
    b"brake = [[0, 100000], [1000, 100000]]\n",
];

/// The train file with another text in the place of line n, counted from 1.
fn changed(alloc: Global, n: usize, new: &[u8]) -> Result<Vec<u8>, AllocError> {
    let mut text = Vec::new(alloc);
    for (i, line) in LINES.iter().enumerate() {
        if i.wrapping_add(1) == n {
            text.extend_from_slice(new)?;
        } else {
            text.extend_from_slice(line)?;
        }
    }
    Ok(text)
}

/// The refusal of a text, if it has one.
fn refusal(alloc: Global, text: &[u8]) -> Option<TrainFault> {
    match read_train(alloc, text) {
        Ok(_) => None,
        Err(fault) => Some(fault),
    }
}

#[test]
fn a_train_is_read(rt: HostRuntime) -> Result<(), Fail> {
    let alloc = rt.alloc();
    let text = changed(
        alloc,
        5,
        b"c = 3\nlength = 400\nregeneration = 500\nversion = 2\n",
    )?;
    let train = read_train(alloc, &text)?;
    let Train {
        version,
        mass,
        inertia,
        a,
        b,
        c,
        length,
        regeneration,
        traction,
        brake,
    } = train.copy(alloc)?;
    assert!(rt; version == 2);
    assert!(rt; length == 400);
    assert!(rt; regeneration == 500);
    assert!(rt; mass == 1000);
    assert!(rt; inertia == 1100);
    assert!(rt; a == 1000);
    assert!(rt; b == 20);
    assert!(rt; c == 3);
    assert!(rt; traction.top() == 1000);
    assert!(rt; brake.top() == 1000);
    assert!(rt; traction.at(0) == 51_000);
    assert!(rt; traction.at(999) == 50_001);
    assert!(rt; brake.at(1000) == 100_000);
    Ok(())
}

#[test]
fn other_texts_are_accepted(rt: HostRuntime) -> Result<(), Fail> {
    let alloc = rt.alloc();
    const TABLE: &[(usize, &[u8])] = &[
        (1, b"version = 1\nmass = 1000\n"),
        (1, b"# a comment\nname = \"x\"\nmass = 1_000\n"),
        (1, b"mass = 0x3E8\r\n"),
        (6, b"traction = [\n  [0, 51000],\n  [1000, 0],\n]\n"),
        (7, b"brake = [[0, 5], [1000, 5]]\n[more]\nmass = \"none\""),
        (
            7,
            b"brake = [[0, 0], [1, 0], [1000, 0]]\nregeneration = 1.5\n",
        ),
        (2, b"inertia = +120000\n"),
        (5, b"c = 0\nlength = 1000\n"),
        (1, b"version = 2\nregeneration = 0\nmass = 1000\n"),
        (5, b"c = 0\n"),
    ];
    for &(n, new) in TABLE {
        let text = changed(alloc, n, new)?;
        assert!(rt; refusal(alloc, &text) == None, "{n}");
    }
    let one_row =
        b"brake = [[0, 7]]\ntraction = [[0, 9]]\nc = 1\nb = 1\na = 1\ninertia = 1\nmass = 1";
    assert!(rt; refusal(alloc, one_row) == None);
    Ok(())
}

#[test]
fn each_key_is_needed(rt: HostRuntime) -> Result<(), Fail> {
    let alloc = rt.alloc();
    const KEYS: &[Key] = &[
        Key::Mass,
        Key::Inertia,
        Key::A,
        Key::B,
        Key::C,
        Key::Traction,
        Key::Brake,
    ];
    for (i, key) in KEYS.iter().enumerate() {
        let text = changed(alloc, i.wrapping_add(1), b"")?;
        assert!(rt;
            refusal(alloc, &text) == Some(TrainFault::Missing(*key)),
            "{i}"
        );
    }
    assert!(rt; refusal(alloc, b"") == Some(TrainFault::Missing(Key::Mass)));
    Ok(())
}

#[test]
fn texts_and_kinds_are_refused(rt: HostRuntime) -> Result<(), Fail> {
    let alloc = rt.alloc();
    const TABLE: &[(usize, &[u8], TrainFault)] = &[
        (1, b"mass =\n", TrainFault::Text),
        (1, b"mass = 1\nmass = 1\n", TrainFault::Text),
        (1, b"mass = 1 # \xFF\n", TrainFault::Text),
        (1, b"mass = 9223372036854775808\n", TrainFault::Text),
        (7, b"brake = [[0, 1]\n", TrainFault::Text),
        (1, b"version = 3\n", TrainFault::OutOfRange(Key::Version)),
        (1, b"version = \"1\"\n", TrainFault::WrongKind(Key::Version)),
        (
            5,
            b"c = 0\nlength = 1.5\n",
            TrainFault::WrongKind(Key::Length),
        ),
        (6, b"version = 2\n", TrainFault::Missing(Key::Regeneration)),
        (
            6,
            b"version = 2\nregeneration = 1.5\n",
            TrainFault::WrongKind(Key::Regeneration),
        ),
        (1, b"mass = 1000.0\n", TrainFault::WrongKind(Key::Mass)),
        (
            2,
            b"inertia = \"1000\"\n",
            TrainFault::WrongKind(Key::Inertia),
        ),
        (4, b"b = [1]\n", TrainFault::WrongKind(Key::B)),
        (
            6,
            b"traction = 51000\n",
            TrainFault::WrongKind(Key::Traction),
        ),
        (
            6,
            b"traction = [0, 51000]\n",
            TrainFault::WrongKind(Key::Traction),
        ),
        (
            6,
            b"traction = [[0, 51000, 1]]\n",
            TrainFault::WrongKind(Key::Traction),
        ),
        (
            6,
            b"traction = [[0, 51000.0]]\n",
            TrainFault::WrongKind(Key::Traction),
        ),
        (
            7,
            b"brake = [[99999, -1], [1]]\n",
            TrainFault::WrongKind(Key::Brake),
        ),
        (7, b"brake = [[0]]\n", TrainFault::WrongKind(Key::Brake)),
    ];
    for &(n, new, fault) in TABLE {
        let text = changed(alloc, n, new)?;
        assert!(rt; refusal(alloc, &text) == Some(fault), "{n}");
    }
    Ok(())
}

#[test]
fn ranges_are_held(rt: HostRuntime) -> Result<(), Fail> {
    let alloc = rt.alloc();
    const TABLE: &[(usize, &[u8], Option<Key>)] = &[
        (1, b"mass = 0\n", Some(Key::Mass)),
        (1, b"mass = 1\n", None),
        (1, b"mass = 100000\n", None),
        (1, b"mass = 100001\n", Some(Key::Mass)),
        (2, b"inertia = 0\n", Some(Key::Inertia)),
        (2, b"inertia = 120001\n", Some(Key::Inertia)),
        (3, b"a = -1\n", Some(Key::A)),
        (3, b"a = 10000000\n", None),
        (3, b"a = 10000001\n", Some(Key::A)),
        (4, b"b = -9223372036854775808\n", Some(Key::B)),
        (4, b"b = 10000001\n", Some(Key::B)),
        (5, b"c = 10000000\n", None),
        (5, b"c = 10000001\n", Some(Key::C)),
        (5, b"c = 0\nlength = 1001\n", Some(Key::Length)),
        (5, b"c = 0\nlength = -1\n", Some(Key::Length)),
        (
            6,
            b"version = 2\nregeneration = 1001\n",
            Some(Key::Regeneration),
        ),
        (6, b"traction = [[-1, 0]]\n", Some(Key::Traction)),
        (6, b"traction = [[0, 2000001]]\n", Some(Key::Traction)),
        (6, b"traction = [[0, 2000000], [1000, 0]]\n", None),
        (7, b"brake = [[5, 1], [12001, 1]]\n", Some(Key::Brake)),
        (7, b"brake = [[0, 1], [1000, -1]]\n", Some(Key::Brake)),
        (
            7,
            b"brake = [[0, 1], [1000, 9223372036854775807]]\n",
            Some(Key::Brake),
        ),
    ];
    for &(n, new, key) in TABLE {
        let text = changed(alloc, n, new)?;
        let fault = key.map(|k| TrainFault::OutOfRange(k));
        assert!(rt; refusal(alloc, &text) == fault, "{n}");
    }
    Ok(())
}

#[test]
fn tables_are_refused(rt: HostRuntime) -> Result<(), Fail> {
    let alloc = rt.alloc();
    const TABLE: &[(usize, &[u8], TrainFault)] = &[
        (6, b"traction = []\n", TrainFault::TableStart(Key::Traction)),
        (
            6,
            b"traction = [[1, 5], [1, 6]]\n",
            TrainFault::TableStart(Key::Traction),
        ),
        (
            6,
            b"traction = [[0, 51000], [500, 50000], [1000, 50001]]\n",
            TrainFault::TableRises(Key::Traction, 3),
        ),
        (
            6,
            b"traction = [[0, 5], [0, 6], [0, 7]]\n",
            TrainFault::TableOrder(Key::Traction, 2),
        ),
        (
            7,
            b"brake = [[0, 5], [9, 5], [8, 5]]\n",
            TrainFault::TableOrder(Key::Brake, 3),
        ),
        (
            7,
            b"brake = [[0, 5], [12000, 6]]\n",
            TrainFault::TableRises(Key::Brake, 2),
        ),
        (7, b"brake = [[0, 5], [999, 5]]\n", TrainFault::TopsDiffer),
        (7, b"brake = [[0, 5], [1001, 5]]\n", TrainFault::TopsDiffer),
        (6, b"traction = [[0, 0]]\n", TrainFault::TopsDiffer),
    ];
    for &(n, new, fault) in TABLE {
        let text = changed(alloc, n, new)?;
        assert!(rt; refusal(alloc, &text) == Some(fault), "{n}");
    }
    assert!(rt;
        refusal(alloc, b"traction = 5\nmass = 0\n") == Some(TrainFault::OutOfRange(Key::Mass))
    );
    assert!(rt;
        refusal(
            alloc,
            b"traction = [[1, 1]]\nmass = 1\ninertia = 1\na = 1\nb = 1\nc = 1\n"
        ) == Some(TrainFault::TableStart(Key::Traction))
    );
    Ok(())
}
