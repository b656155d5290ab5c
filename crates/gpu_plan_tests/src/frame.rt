//! A frame of six passes: depth, normals, lit, bloom, a histogram and the final image.

ghost use Rattle.std.specs.Prelude.{◌≡◌};

use gpu_plan::{Kind, Resource};

mod memory;
mod refused;
mod rows;

/// A resource of so many bytes.
fn resource(size: u64, alignment: u64, kind: Kind, first: u64, last: u64) -> Resource
    ensures { result ≡ record {
      size = size;
      alignment = alignment;
      kind = kind;
      first = first;
      last = last;
    } }
{
    Resource {
        size,
        alignment,
        kind,
        first,
        last,
    }
}

/// The frame's resources: 320 bytes are alive in pass 1, and 264, 232, 192, 168 and 96 in passes 3, 2, 0, 4 and 5.
fn frame() -> [Resource; 6] {
    [
        resource(64, 16, Kind::Optimal, 0, 3),
        resource(128, 16, Kind::Optimal, 0, 1),
        resource(128, 16, Kind::Optimal, 1, 3),
        resource(32, 16, Kind::Optimal, 3, 4),
        resource(40, 8, Kind::Linear, 2, 4),
        resource(96, 16, Kind::Optimal, 4, 5),
    ]
}
