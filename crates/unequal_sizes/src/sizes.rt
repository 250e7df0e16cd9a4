ghost use Rattle.std.specs.Prelude.{◌<◌};

// Whole sizes, of a source or of a destination: how many, where the first is, and what the address steps by after each, with which modulo.
#[derive(Clone, Copy)]
pub struct Sizes {
    pub count: u32,
    pub first: u32,
    pub off: u32,
    pub modulo: u32,
    ghost five_bits: { modulo < 32 },
}
