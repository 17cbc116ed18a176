ghost use Rattle.std.specs.Prelude.{◌≡◌, ◌<◌, length, IfOk, OnOk};
ghost use Rattle.nm_rmap.specs.Mappers.{with_mapper};
ghost use Rattle.nm_rmap.specs.Examples.{three_mappers};

use nm_rmap::ReverseMap;
use nm_types::{FrameId, Pid, Vpn};
use std::alloc::{AllocError, Global};
use std::test::Fail;

/// Makes a page number of a process a mapper of frame 0.
fn add_to_first(map: &mut ReverseMap<Global>, pid: u32, vpn: u64) -> Result<(), AllocError>
    requires { 0 < length map.old.mappings }
    ensures { OnOk result (map.new ≡ with_mapper map.old 0 (pid, vpn)) }
{
    map.add(FrameId::new(0), Pid::new(pid), Vpn::new(vpn))
}

/// Eight frames. Two page numbers of process 1 and one of process 2 map frame 0, added out of order.
fn three_mappers(alloc: Global) -> Result<ReverseMap<Global>, AllocError>
    ensures { IfOk result (λ map. map ≡ three_mappers) }
{
    let mut map = ReverseMap::new(alloc, 8)?;
    add_to_first(&mut map, 2, 64)?;
    add_to_first(&mut map, 1, 32)?;
    add_to_first(&mut map, 1, 16)?;
    Ok(map)
}

#[test]
fn mappers_are_listed_in_order(rt: HostRuntime) -> Result<(), Fail> {
    let map = three_mappers(rt.alloc())?;
    let three = [
        (Pid::new(1), Vpn::new(16)),
        (Pid::new(1), Vpn::new(32)),
        (Pid::new(2), Vpn::new(64)),
    ];
    assert!(rt; map.mappers(FrameId::new(0))?.as_slice() == three.as_slice());
    Ok(())
}
