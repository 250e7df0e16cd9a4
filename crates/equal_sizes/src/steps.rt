ghost use Rattle.std.specs.Prelude.{◌<◌};

// What the addresses step by after each whole size, and with which modulo: each has 5 bits.
#[derive(Clone, Copy)]
pub struct Steps {
    pub soff: u32,
    pub smod: u32,
    pub doff: u32,
    pub dmod: u32,
    ghost source_modulo: { smod < 32 },
    ghost dest_modulo: { dmod < 32 },
}
