//! How a memory opens, and what is left of it when it closes.

ghost use Rattle.std.specs.List.{AllByRecursion};
ghost use Rattle.std.specs.Prelude.{◌<◌, length};
ghost use Rattle.partial_long_lived.specs.Ports.{IsOf};

use crate::memories::{taken, with_last};
use partial_long_lived::{LongLived, OpenError, Options, Port, Updated};
use std::alloc::Global;
use std::process::Abort;
use std::test::Fail;

// Opens a memory with these values, which is refused.
fn refused(
    rt: &impl Abort,
    alloc: Global,
    initial: &[u64],
    ports: u32,
    options: Options,
    error: OpenError,
) {
    let found = LongLived::open(alloc, initial, ports, options).err();
    assert_eq!(rt; found, Some(error));
}

// Closes a memory with its last port and these others.
fn closed(alloc: Global, memory: LongLived, last: Port, rest: Vec<Port>) -> Result<Vec<u64>, Fail>
    requires last { IsOf memory last }
    requires rest { AllByRecursion (IsOf memory) rest.items }
{
    Ok(memory.close(alloc, last, rest).ok().ok_or("memory")?)
}

// Closes a memory with all of its ports.
fn closed_with_all(alloc: Global, memory: LongLived, mut rest: Vec<Port>) -> Result<Vec<u64>, Fail>
    requires { AllByRecursion (IsOf memory) rest.items }
{
    let last = taken(&memory, &mut rest)?;
    closed(alloc, memory, last, rest)
}

// There are three ports, which are numbered in their order.
fn are_numbered(rt: &impl Abort, ports: &[Port]) {
    assert_eq!(rt; ports.len(), 3);
    for (number, port) in (0..3).zip(ports) {
        assert_eq!(rt; port.number(), number);
    }
}

// A closed memory has these values.
fn holds(rt: &impl Abort, values: Vec<u64>, expected: &[u64]) {
    assert_eq!(rt; values.as_slice(), expected);
    drop(values);
}

// Ports are numbered in their order, and without an update the initial values are the last ones.
#[test]
fn untouched(rt: HostRuntime) -> Result<(), Fail> {
    let alloc = rt.alloc();
    let (memory, rest) = LongLived::open(alloc, &[10, 20, 30], 3, Options::default())?;
    are_numbered(&rt, &rest);
    holds(&rt, closed_with_all(alloc, memory, rest)?, &[10, 20, 30]);
    Ok(())
}

// A memory closes with one of its ports alone.
#[test]
fn closed_with_one_port(rt: HostRuntime) -> Result<(), Fail> {
    let alloc = rt.alloc();
    let greatest = u64::MAX;
    let (memory, ports) = LongLived::open(alloc, &[greatest], 64, Options::default())?;
    let (memory, port) = with_last(memory, ports)?;
    assert_eq!(rt; port.number(), 63);
    holds(
        &rt,
        closed(alloc, memory, port, Vec::new(alloc))?,
        &[greatest],
    );
    Ok(())
}

// How many ports a memory has that opens with one component and one port.
fn opened_ports(alloc: Global, options: Options) -> Result<usize, OpenError> {
    let opened = LongLived::open(alloc, &[1], 1, options)?;
    let ports = opened.1.len();
    drop(opened);
    Ok(ports)
}

// The first cause in the order of the documentation is the one that is named.
#[test]
fn refused_openings(rt: HostRuntime) -> Result<(), Fail> {
    let alloc = rt.alloc();
    let most = Options {
        lists: 65_536,
        pool: Some(4_194_202),
        announce: None,
    };
    let lists = Options {
        lists: 65_537,
        pool: Some(4_194_203),
        announce: None,
    };
    let pool = Options {
        pool: Some(4_194_203),
        ..most
    };
    refused(&rt, alloc, &[], 0, lists, OpenError::Ports);
    refused(&rt, alloc, &[], 256, lists, OpenError::Ports);
    refused(&rt, alloc, &[], 1, lists, OpenError::Components);
    refused(&rt, alloc, &[1], 1, lists, OpenError::Lists);
    refused(&rt, alloc, &[1], 1, pool, OpenError::Pool);
    assert_eq!(rt; opened_ports(alloc, most)?, 1);
    Ok(())
}

// When scans don't announce themselves, a record has 3 words, where one with a view of one component has 6.
#[test]
fn openings_without_announcements(rt: HostRuntime) -> Result<(), Fail> {
    let alloc = rt.alloc();
    let most = Options {
        lists: 65_536,
        pool: Some(4_194_205),
        announce: Some(false),
    };
    let pool = Options {
        pool: Some(4_194_206),
        ..most
    };
    refused(&rt, alloc, &[1], 1, pool, OpenError::Pool);
    assert_eq!(rt; opened_ports(alloc, most)?, 1);
    Ok(())
}

// With very many components and ports an arena has no room for views.
#[test]
fn refused_announcements(rt: HostRuntime) -> Result<(), Fail> {
    let alloc = rt.alloc();
    let announced = Options {
        lists: 1_024,
        pool: None,
        announce: Some(true),
    };
    let values = vec![in alloc; 0; 40_000]?;
    refused(&rt, alloc, &values, 64, announced, OpenError::Pool);
    drop(values);
    Ok(())
}

// Sets component 0 until an update is applied in another epoch than the first. Returns how many updates that one had.
fn updates_of_first_epoch(rt: &impl Abort, memory: &LongLived, port: &mut Port) -> u64
    requires { IsOf memory.now port.old }
    ensures { IsOf memory.now port.new }
{
    for count in 0..30_000 {
        let Ok(Updated::Applied { stamp }) = memory.update(port, 0, count) else {
            panic!(rt; "not applied");
        };
        if stamp >= 1 << 23 {
            return count;
        }
    }
    panic!(rt; "the epoch isn't changed");
}

// A memory of these components that is opened for so many ports claims so many pool words in an epoch. A claim is of three
// words and of those ahead: 93, or an eighth of the port's part if that is fewer. It has room for one update and one more
// for each three words ahead; one that ends after the last of the epoch's words spends its port with its first update.
fn claims(
    rt: &impl Abort,
    alloc: Global,
    values: &[u64],
    ports: u32,
    words: u64,
) -> Result<(), Fail>
    requires { 0 < length values.now }
{
    let (memory, all) = LongLived::open(alloc, values, ports, Options::default())?;
    let (memory, mut port) = with_last(memory, all)?;
    let ahead = (words / 8 / u64::from(ports)).min(93);
    assert_eq!(rt;
        updates_of_first_epoch(rt, &memory, &mut port),
        (words / (3 + ahead) * (1 + ahead / 3)).saturating_add(1)
    );
    drop((memory, port));
    Ok(())
}

// When the options leave the pool open, an arena has 16,384 words for each port, until all arenas have 262,144
// together, and 8,192 at least.
#[test]
fn usual_pools(rt: HostRuntime) -> Result<(), Fail> {
    let pools = [
        (1, 16_384),
        (2, 32_768),
        (3, 43_690),
        (4, 32_768),
        (5, 26_214),
        (8, 16_384),
        (16, 8_192),
        (64, 8_192),
    ];
    for (ports, words) in &pools {
        claims(&rt, rt.alloc(), &[10], *ports, *words)?;
    }
    Ok(())
}

// With more than 1,024 components it has 16 words for each of them, when the arena has room for so many.
#[test]
fn pools_for_many_components(rt: HostRuntime) -> Result<(), Fail> {
    let alloc = rt.alloc();
    let values = vec![in alloc; 0; 2_000]?;
    claims(&rt, alloc, &values, 1, 32_000)?;
    drop(values);
    Ok(())
}

// So many it also has when no scan announces itself, with more than 65,536 components times ports.
#[test]
fn pools_without_announcements(rt: HostRuntime) -> Result<(), Fail> {
    let alloc = rt.alloc();
    let values = vec![in alloc; 0; 1_025]?;
    claims(&rt, alloc, &values, 64, 16_400)?;
    drop(values);
    Ok(())
}

// A refusal has that text.
fn says(rt: &impl Abort, alloc: Global, error: OpenError, text: &str) -> Result<(), Fail> {
    let said = format!(in alloc; "{error}")?;
    assert_eq!(rt; said.as_str(), text);
    drop(said);
    Ok(())
}

// Each refusal has its number and its text.
#[test]
fn refusals(rt: HostRuntime) -> Result<(), Fail> {
    let all = [
        (
            OpenError::Ports,
            5,
            "ports out of range: 1 to 255, with any number of components",
        ),
        (
            OpenError::Components,
            1,
            "components out of range: 1 to 65536, with any number of ports",
        ),
        (
            OpenError::Lists,
            3,
            "list words out of range: at most 65536",
        ),
        (
            OpenError::Pool,
            4,
            "pool words out of range: fewer leave room for these components and ports",
        ),
        (OpenError::OutOfMemory, 6, "out of memory"),
    ];
    for (error, code, text) in &all {
        assert_eq!(rt; error.code(), *code);
        says(&rt, rt.alloc(), *error, text)?;
    }
    Ok(())
}
