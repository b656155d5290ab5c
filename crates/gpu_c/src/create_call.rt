//! By which call a resource of DirectX 12 is made. It has no handle, and the device isn't asked.

ghost use Rattle.std.specs.Prelude.{◌≡◌, ◌≢◌, ◌↔◌, [], ◌∷◌, List, true};
ghost use Rattle.gpu_device.specs.declared.d3d12.types.Format.{Format};
ghost use Rattle.gpu_d3d12.specs.Question.{resource_question};
ghost use Rattle.gpu_d3d12.specs.declared.question.ResourceStateOrBarrierLayout.{ResourceStateOrBarrierLayout};
ghost use Rattle.gpu_c.specs.Status as status;
ghost use Rattle.gpu_c.specs.Status.{IsOneOf};
ghost use Rattle.gpu_c.specs.CreateCall.{Version, IsVersion, IsToldOf, TellsCall};
ghost use Rattle.gpu_c.specs.declared.status.TheConstants.{OK, INVALID, LAYOUT_NEEDS_DEVICE10, FORMATS_NEED_LAYOUT, FORMATS_NEED_DEVICE12};

use crate::status::{
    FORMATS_NEED_DEVICE12, FORMATS_NEED_LAYOUT, INVALID, LAYOUT_NEEDS_DEVICE10, OK,
};

/// `ID3D12Device`: resources begin in a state.
const DEVICE: u32 = 0;

/// `ID3D12Device10`: they may begin in a barrier layout.
const DEVICE10: u32 = 10;

/// `ID3D12Device12`: and then have castable formats.
const DEVICE12: u32 = 12;

/// In a state (`CreateCommittedResource`, `CreatePlacedResource`).
const IN_STATE: u32 = 1;

/// In a layout, without formats (`CreateCommittedResource3`, `CreatePlacedResource2`).
const IN_LAYOUT: u32 = 2;

/// The same with the list of formats, be it empty.
const IN_LAYOUT_WITH_FORMATS: u32 = 3;

/// By which call a resource is made that begins in a layout. `FORMATS_NEED_DEVICE12` for castable formats, else
/// `LAYOUT_NEEDS_DEVICE10`.
fn layout_call(version: u32, has_formats: bool, call: &mut u32) -> u32
    requires { IsVersion version }
    ensures told { (v : Version) (begins : ResourceStateOrBarrierLayout) (castable : List Format)
        → IsToldOf version true has_formats v begins castable
        → TellsCall result call.new (resource_question v begins castable) }
    ensures statuses { IsOneOf result (status.ok ∷ status.formats_need_device12
        ∷ status.layout_needs_device10 ∷ []) }
    ensures refused { result ≢ status.ok → call.new ≡ call.old }
{
    if version == DEVICE12 {
        *call = IN_LAYOUT_WITH_FORMATS;
        return OK;
    }
    if has_formats {
        return FORMATS_NEED_DEVICE12;
    }
    if version == DEVICE {
        return LAYOUT_NEEDS_DEVICE10;
    }
    *call = IN_LAYOUT;
    OK
}

/// By which call a resource is made, at a device whose newest interface has this version. `INVALID` where no interface has it, else
/// `FORMATS_NEED_LAYOUT` for castable formats with a state, else `FORMATS_NEED_DEVICE12` for castable formats at an older device, else
/// `LAYOUT_NEEDS_DEVICE10` for a layout at one that is older still.
#[unsafe(no_mangle)]
pub extern "C" fn pilhangko_raw_heaps_choose_call(
    version: u32,
    in_layout: bool,
    has_formats: bool,
    call: &mut u32,
) -> u32
    ensures told { result ≢ status.invalid
        → (v : Version) (begins : ResourceStateOrBarrierLayout) (castable : List Format)
        → IsToldOf version in_layout has_formats v begins castable
        → TellsCall result call.new (resource_question v begins castable) }
    ensures invalid { (result ≡ status.invalid) ↔ (IsVersion version → ⊥) }
    ensures statuses { IsOneOf result (status.ok ∷ status.invalid ∷ status.formats_need_layout
        ∷ status.formats_need_device12 ∷ status.layout_needs_device10 ∷ []) }
    ensures refused { result ≢ status.ok → call.new ≡ call.old }
{
    if version != DEVICE && version != DEVICE10 && version != DEVICE12 {
        return INVALID;
    }
    if in_layout {
        return layout_call(version, has_formats, call);
    }
    if has_formats {
        return FORMATS_NEED_LAYOUT;
    }
    *call = IN_STATE;
    OK
}
