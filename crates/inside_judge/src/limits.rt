ghost use Rattle.std.specs.Prelude.{◌<◌};

// What items are held against: words lie at or above E, and the configuration region is the z bytes at c.
#[derive(Clone, Copy)]
pub struct Limits {
    pub E: usize,
    pub c: usize,
    pub z: usize,
    ghost small: { (c < 4294967296) × (z < 4294967296) },
}
