use crate::device::MemoryDevice;
use crate::plan::{Plan, SMOOTH};
use crate::record::Record;
use kc_io::{Action, Device, Fault, Manner, Site, Text, deliver};
use std::alloc::AllocError;

const FIRST: &[(&str, &[u8])] = &[("config", b"A=n\n"), ("kept", b"abcdefg")];

// Delivers two texts.
fn delivered(
    rt: &HostRuntime,
    manner: Manner,
    device: &mut MemoryDevice<'_>,
) -> Result<Option<(Action, Fault)>, AllocError> {
    let mut texts = Vec::new(rt.alloc());
    texts.push(Text {
        name: "config",
        bytes: Vec::from_slice(rt.alloc(), b"A=y\n")?,
    })?;
    texts.push(Text {
        name: "header",
        bytes: Vec::from_slice(rt.alloc(), b"#define A 1\n")?,
    })?;
    Ok(match deliver(manner, texts, device) {
        Ok(()) => None,
        Err(failure) => Some((failure.action, failure.fault)),
    })
}

fn last<'d>(device: &'d MemoryDevice<'_>) -> Option<&'d Record> {
    match device.records() {
        Some(records) => records.last(),
        None => None,
    }
}

// What fails if the call of this number fails.
fn failing(
    rt: &HostRuntime,
    manner: Manner,
    fail_at: u64,
) -> Result<Option<(Action, Fault)>, AllocError> {
    let plan = Plan {
        piece: 8,
        fail_at,
        ..SMOOTH
    };
    let mut device = MemoryDevice::new(rt.alloc(), FIRST, plan);
    delivered(rt, manner, &mut device)
}

#[test]
fn texts_stand_in_their_files(rt: HostRuntime) {
    for piece in [0, 1, 3, 100] {
        for manner in [Manner::InPlace, Manner::Replacing] {
            let mut device = MemoryDevice::new(rt.alloc(), FIRST, Plan { piece, ..SMOOTH });
            assert!(rt; delivered(&rt, manner, &mut device) == Ok(None));
            assert!(rt; device.holds("config", b"A=y\n"));
            assert!(rt; device.holds("header", b"#define A 1\n"));
            assert!(rt; !device.holds("other", b""));
            assert!(rt;
                matches!(device.held("kept"), Ok(Some(bytes)) if bytes.as_slice() == b"abcdefg".as_slice())
            );
            assert!(rt; matches!(device.held("other"), Ok(None)));
        }
    }
}

#[test]
fn each_call_fails_in_turn(rt: HostRuntime) {
    let plain = [
        Action::Create(Site::Place),
        Action::Write(Site::Place),
        Action::Close(Site::Place),
        Action::Create(Site::Place),
        Action::Write(Site::Place),
        Action::Write(Site::Place),
        Action::Close(Site::Place),
    ];
    let mut number: u64 = 0;
    for action in plain {
        number = number.saturating_add(1);
        assert!(rt; failing(&rt, Manner::InPlace, number) == Ok(Some((action, Fault::Refused))));
    }
    assert!(rt; failing(&rt, Manner::InPlace, 8) == Ok(None));
    assert!(rt; failing(&rt, Manner::Replacing, 8) == Ok(Some((Action::Move, Fault::Refused))));
    assert!(rt; failing(&rt, Manner::Replacing, 10) == Ok(None));
}

#[test]
fn calls_of_one_kind_are_counted(rt: HostRuntime) {
    let plan = Plan {
        counted: Some(Action::Close(Site::Beside)),
        fail_at: 2,
        fault: Fault::Memory,
        ..SMOOTH
    };
    let mut device = MemoryDevice::new(rt.alloc(), FIRST, plan);
    let answer = delivered(&rt, Manner::Replacing, &mut device);
    assert!(rt; answer == Ok(Some((Action::Close(Site::Beside), Fault::Memory))));
    assert!(rt; device.calls() == 2);
    assert!(rt; device.holds("config", b"A=n\n"));
    assert!(rt; matches!(last(&device), Some(record) if record.action == Action::Clear));
}

#[test]
fn a_write_without_room_is_refused(rt: HostRuntime) {
    let mut device = MemoryDevice::new(rt.alloc(), FIRST, Plan { room: 10, ..SMOOTH });
    let answer = delivered(&rt, Manner::InPlace, &mut device);
    assert!(rt; answer == Ok(Some((Action::Write(Site::Place), Fault::Refused))));
    assert!(rt; device.holds("header", b"#defin"));
}

#[test]
fn equal_files_are_left_alone(rt: HostRuntime) {
    let mut device = MemoryDevice::new(rt.alloc(), FIRST, SMOOTH);
    assert!(rt; delivered(&rt, Manner::Replacing, &mut device) == Ok(None));
    let calls = device.calls();
    assert!(rt; delivered(&rt, Manner::Replacing, &mut device) == Ok(None));
    assert!(rt; device.calls() == calls);
}

#[test]
fn a_file_is_read_in_pieces(rt: HostRuntime) {
    let plan = Plan {
        first_read: 2,
        later_reads: 4,
        counted: Some(Action::Read),
        fail_at: 5,
        ..SMOOTH
    };
    let mut device = MemoryDevice::new(rt.alloc(), FIRST, plan);
    let mut buffer = [0; 8];
    assert!(rt; device.open("kept", false) == Ok(true));
    assert!(rt; device.read("kept", &mut buffer) == Ok(2));
    assert!(rt; &buffer[..2] == b"ab".as_slice());
    assert!(rt; device.read("kept", &mut buffer) == Ok(4));
    assert!(rt; &buffer[..4] == b"cdef".as_slice());
    assert!(rt; device.read("kept", &mut buffer) == Ok(1));
    assert!(rt; &buffer[..1] == b"g".as_slice());
    assert!(rt; device.read("kept", &mut buffer) == Ok(0));
    assert!(rt; device.read("kept", &mut buffer) == Err(Fault::Refused));
    assert!(rt; device.open("other", true) == Ok(false));
    assert!(rt; device.open("other", false) == Err(Fault::Refused));
}

#[test]
fn diagnostics_are_kept(rt: HostRuntime) {
    let plan = Plan {
        counted: Some(Action::Report),
        fail_at: 2,
        ..SMOOTH
    };
    let mut device = MemoryDevice::new(rt.alloc(), FIRST, plan);
    assert!(rt; device.report(&[b"one ", b"line\n"]) == Ok(()));
    assert!(rt; device.report(&[b"lost\n"]) == Err(Fault::Refused));
    assert!(rt; device.diagnostics() == b"one line\n".as_slice());
    assert!(rt; device.reports() == 2);
}
