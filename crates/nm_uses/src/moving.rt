//! A page that moves to another node.

ghost use Rattle.std.specs.Prelude.{◌≡◌, [], ◌∷◌, IfErr, IfOk, OnOk, Some, pos};
ghost use Rattle.nm_model.specs.definitions.Memory.{mem};
ghost use Rattle.nm_model.specs.definitions.Status.{node_status};
ghost use Rattle.nm_calls.specs.definitions.Systems.{new_system};
ghost use Rattle.nm_uses.specs.Moving.{after_map, after_move, after_spawn, nodes_to_use, after_write, IsMemory};

use nm_calls::{CallError, Question, System};
use nm_crew::Alone;
use nm_frames::CopyJob;
use nm_requests::{Batch, MoveRequest, NewArea, NewProcess};
use nm_spaces::AddressSpaces;
use nm_types::{Geometry, NodeId, NodeMask, Pid};
use std::alloc::{AllocError, Global};
use std::marker::PhantomData;

/// The process.
const PID: u32 = 1;

/// Where its page begins.
const ADDRESS: u64 = 65_536;

/// The node that the page moves to.
const TARGET: u32 = 1;

/// Two nodes of four frames each, at distance 10 to themselves and 20 to each other.
fn two_nodes(heap: Global) -> Result<Geometry<Global>, AllocError>
    ensures { IfOk result (λ geometry. geometry ≡ nodes_to_use) }
{
    let sizes = vec![in heap; 4u32, 4]?;
    let distances = vec![in heap; vec![in heap; 10u8, 20]?, vec![in heap; 20u8, 10]?]?;
    let Ok(geometry) = Geometry::new(sizes, distances) else {
        unreachable!()
    };
    Ok(geometry)
}

/// A new machine of these nodes.
fn machine(heap: Global) -> Result<System<Global>, AllocError>
    ensures { IfOk result (λ system. system ≡ new_system nodes_to_use) }
{
    System::new(heap, two_nodes(heap)?)
}

/// The process begins, at home on node 0.
fn spawn(system: &mut System<Global>) -> Result<(), CallError>
    requires { system.old ≡ new_system nodes_to_use }
    ensures done { OnOk result (system.new ≡ after_spawn) }
    ensures memory { IfErr result IsMemory }
{
    let mut allowed = NodeMask::new();
    allowed.insert(NodeId::new(0));
    allowed.insert(NodeId::new(1));
    system.spawn(&NewProcess {
        pid: Pid::new(PID),
        uid: 100,
        home: NodeId::new(0),
        allowed,
        privileged: false,
    })
}

/// It maps a page.
fn map(system: &mut System<Global>) -> Result<(), CallError>
    requires { system.old ≡ after_spawn }
    ensures done { OnOk result (system.new ≡ after_map) }
    ensures memory { IfErr result IsMemory }
{
    system.map(&NewArea {
        pid: Pid::new(PID),
        addr: ADDRESS,
        pages: 1,
        shared: false,
    })?;
    Ok(())
}

/// It writes a byte, for which its page takes a frame of node 0.
fn write(system: &mut System<Global>) -> Result<(), CallError>
    requires { system.old ≡ after_map }
    ensures done { OnOk result (system.new ≡ after_write) }
    ensures memory { IfErr result IsMemory }
{
    let byte = [b'a'];
    system.write(Pid::new(PID), ADDRESS, byte.as_slice())
}

/// It moves the page to node 1, as move_pages(2) does.
fn move_there(heap: Global, system: &mut System<Global>) -> Result<(), CallError>
    requires { system.old ≡ after_write }
    ensures done { OnOk result (system.new ≡ after_move) }
    ensures memory { IfErr result IsMemory }
{
    // (the kit's borrow checker looks for what a crew works on among the types of this function)
    let _work: PhantomData<(CopyJob<Global>, AddressSpaces<Global>)> = PhantomData;
    let request = MoveRequest {
        caller: Pid::new(PID),
        pid: Pid::new(0),
        batch: Batch {
            pages: vec![in heap; ADDRESS]?,
            nodes: vec![in heap; TARGET]?,
        },
        flags: 2,
        during: Vec::new(heap),
    };
    system.move_pages(&Alone, &request)?;
    Ok(())
}

/// On a new machine, a process writes a byte to a page, and moves the page to node 1. The page is then on that node and
/// reads as before. Only a lack of host memory can prevent this.
fn move_page(heap: Global, system: &mut System<Global>) -> Result<(), CallError>
    requires { system.old ≡ new_system nodes_to_use }
    ensures done { OnOk result (system.new ≡ after_move) }
    ensures node { OnOk result (node_status system.new.state 1 16 ≡ pos 1) }
    ensures byte { OnOk result (mem system.new.state 1 65536 ≡ Some 97) }
    ensures memory { IfErr result IsMemory }
{
    spawn(system)?;
    map(system)?;
    write(system)?;
    move_there(heap, system)
}

/// The node of the page, as move_pages(2) without nodes answers, and the byte there.
fn look(heap: Global, system: &mut System<Global>) -> Result<(Vec<i32>, Vec<u8>), CallError>
    requires { system.old ≡ after_move }
    ensures found { IfOk result (λ seen. (seen.0.items ≡ pos 1 ∷ []) × (seen.1.items ≡ 97 ∷ [])) }
    ensures memory { IfErr result IsMemory }
{
    let question = Question {
        caller: Pid::new(PID),
        pid: Pid::new(0),
        pages: vec![in heap; ADDRESS]?,
        flags: 2,
    };
    let statuses = system.query(&question)?;
    let bytes = system.read(Pid::new(PID), ADDRESS, 1)?;
    Ok((statuses, bytes))
}

/// Moves the page on a new machine, and then looks at it.
pub fn page_moved(heap: Global) -> Result<(Vec<i32>, Vec<u8>), CallError>
    ensures found { IfOk result (λ seen. (seen.0.items ≡ pos 1 ∷ []) × (seen.1.items ≡ 97 ∷ [])) }
    ensures memory { IfErr result IsMemory }
{
    let mut system = machine(heap)?;
    move_page(heap, &mut system)?;
    look(heap, &mut system)
}
