//! Rooms that C gives for lists.

ghost use Rattle.std.specs.Prelude.{◌≡◌};
ghost use Rattle.nm_library.specs.Rooms.{at_front, FillsRoom};

use crate::status;

/// Copies a list to the front of a room, as far as there is room.
pub fn put<T: Copy>(items: &[T], room: &mut [T])
    ensures { room.new ≡ at_front items.now room.old }
{
    let fits = items.len().min(room.len());
    let (front, _) = room.split_at_mut(fits);
    front.copy_from_slice(&items[..fits]);
}

/// Copies a list to the front of a room, if it fits, and its length to `needed`.
pub fn fill<T: Copy>(items: &[T], room: &mut [T], needed: &mut usize) -> i32
    ensures { FillsRoom items.now result room.old room.new needed.new }
{
    *needed = items.len();
    if room.len() < items.len() {
        return status::SMALL_ROOM;
    }
    put(items, room);
    status::DONE
}
