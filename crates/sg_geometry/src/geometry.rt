ghost use Rattle.std.specs.Prelude.{◌≡◌, ◌+◌, ◌/◌};
ghost use Rattle.sg_gate.specs.Superblock.{map_bands};

/// The sizes that a store is made with, and keeps.
#[derive(Clone, Copy, Debug, PartialEq, Eq)]
pub struct Geometry {
    /// How many pages of 4,096 bytes there are: 64 to 1,048,576.
    pub pages: u32,
    /// How many bands of 32,768 bytes there are: 4 to 65,536, and more than the map of what is taken needs itself.
    pub bands: u32,
    /// For how many pages there is room in memory: 32 to 16,384.
    pub frames: u32,
    /// For how many bands there is room in memory: 4 to 256.
    pub windows: u32,
}

impl Geometry {
    ghost use Rattle.sg_geometry.specs.Fit.{is_fit};

    // How many bands the map of what is taken needs: it has a bit for each page and each band.
    fn map_bands(&self) -> u64
        ensures { result ≡ map_bands self.now.pages self.now.bands }
    {
        (self.pages as u64 + self.bands as u64 + 262_143) / 262_144
    }

    /// Whether a store may be made with these sizes: each is in its range.
    pub fn is_fit(&self) -> bool
        ensures { result ≡ is_fit self.now }
    {
        (64..=1_048_576).contains(&self.pages)
            && (4..=65_536).contains(&self.bands)
            && self.map_bands() < self.bands as u64
            && (32..=16_384).contains(&self.frames)
            && (4..=256).contains(&self.windows)
    }
}

impl Default for Geometry {
    /// The sizes of a store where none are given: 64 MiB of pages and 32 MiB of bands, of which 1 MiB each is in memory.
    fn default() -> Self
        ensures { result ≡ record { pages = 16384; bands = 1024; frames = 256; windows = 32 } }
    {
        Geometry {
            pages: 16_384,
            bands: 1_024,
            frames: 256,
            windows: 32,
        }
    }
}
