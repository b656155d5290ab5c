//! A device by the newest interface that it has.

ghost use Rattle.std.specs.Prelude.{◌≡◌};
ghost use Rattle.std.specs.Borrow.{sem};

/// A device by the newest interface that it has, which decides how resources may begin.
#[derive(Drop)]
pub enum ID3D12DeviceVersion<D> {
    /// `ID3D12Device`: resources begin in a state.
    Device(D),
    /// `ID3D12Device10`: they may begin in a barrier layout.
    Device10(D),
    /// `ID3D12Device12`: and then have castable formats.
    Device12(D),
}

impl<D> ID3D12DeviceVersion<D> {
    ghost use Rattle.gpu_d3d12.specs.DeviceVersion.{device_of};
    ghost use Rattle.gpu_d3d12.specs.Lends.{lends_device};

    /// The device, lent.
    pub fn device(&self) -> &D
        ensures { result.now ≡ device_of self.now }
    {
        match self {
            ID3D12DeviceVersion::Device(device) => device,
            ID3D12DeviceVersion::Device10(device) => device,
            ID3D12DeviceVersion::Device12(device) => device,
        }
    }

    /// The device, by value.
    pub fn into_device(self) -> D
        ensures { result ≡ device_of self }
    {
        match self {
            Self::Device(device) | Self::Device10(device) | Self::Device12(device) => device,
        }
    }

    /// The device, lent to be asked.
    pub fn device_mut(&mut self) -> &mut D
        ensures* writes_back { sem 𝓛 (lends_device D.row self.entry result) }
        ensures value { result.now ≡ device_of self.old }
    {
        match self {
            ID3D12DeviceVersion::Device(device) => device,
            ID3D12DeviceVersion::Device10(device) => device,
            ID3D12DeviceVersion::Device12(device) => device,
        }
    }
}
