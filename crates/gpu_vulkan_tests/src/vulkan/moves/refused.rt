//! A piece in mapped memory that the allocator carries to a place ahead, while the host refuses one request for memory. Such tests
//! end as those of the allocator's `refused`.

use super::super::bytes::{reads, write};
use super::super::refused::{ends, named_download, take_again};
use super::super::*;
use gpu_values::AllocationError;
use std::test::Fail;

/// What the piece holds.
const BYTES: [u8; 4] = [1, 2, 3, 4];

/// The piece's request.
fn piece() -> AllocationCreateDesc<'static> {
    named_download("piece", 4, 4)
}

/// Moves a piece; where the host refused memory it came back as it was, and is moved once more.
fn move_again(
    a: &mut Allocator<SimVulkan>,
    from: Allocation,
    refused: &mut u64,
) -> Option<Allocation> {
    let at = place(&from);
    match a.move_mapped(&Discard, from, &piece()) {
        Ok(to) => Some(to),
        Err((AllocationError::HostOutOfMemory, same)) => {
            *refused = refused.saturating_add(1);
            if place(&same) != at || !reads(a, &same, &BYTES) {
                return None;
            }
            match a.move_mapped(&Discard, same, &piece()) {
                Ok(to) => Some(to),
                Err((_, _)) => None,
            }
        }
        Err((_, _)) => None,
    }
}

/// A piece whose block is full goes to the second place of the block ahead, with its bytes, and its first place is free: its block
/// goes with the other piece. Then there is no place ahead, and it stays.
fn carried(a: &mut Allocator<SimVulkan>, refused: &mut u64) -> Option<bool> {
    let from = take_again(a, &piece(), refused)?;
    let full = take_again(a, &named_download("full", 4 * MB - 4, 4), refused)?;
    let ahead = take_again(a, &piece(), refused)?;
    let written = write(a, &from, &BYTES) && place(&ahead) == (1, 0, Some(2));
    let to = move_again(a, from, refused)?;
    let came = place(&to) == (1, 4, Some(3)) && reads(a, &to, &BYTES);
    let freed = a.capacity() == 8 * MB && give(a, full) && a.capacity() == 4 * MB;
    let stays = move_again(a, to, refused)?;
    let stayed = place(&stays) == (1, 4, Some(3)) && reads(a, &stays, &BYTES);
    let all = give(a, ahead) && give(a, stays);
    Some(written && came && freed && stayed && all)
}

/// The bytes of one piece.
fn told(mut a: Allocator<SimVulkan>) -> std::result::Result<(), Fail> {
    let mut refused = 0;
    let done = carried(&mut a, &mut refused);
    let device = a.destroy(&Discard);
    ends(refused, done == Some(true) && device.held() == 0)
}

#[test]
fn bytes_are_carried_or_stay_where_memory_is_refused(
    rt: HostRuntime,
) -> std::result::Result<(), Fail> {
    match simulated(rt.alloc(), &with_types(&[HOST])) {
        Ok(device) => match Allocator::new(&Discard, rt.alloc(), described(device, small())) {
            Ok(a) => told(a),
            Err((_, device)) => ends(1, device.held() == 0),
        },
        Err(AllocError) => ends(1, true),
    }
}
