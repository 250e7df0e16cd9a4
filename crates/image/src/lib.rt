// The image of a device: a device laid down as 8,720 bytes, and read from them. docs/ABI.md has the layout, specs/Image.antt the definition.
#![tactic(auto)]

ghost use Rattle.std.specs.Prelude.{List, cond, map, ◌≡◌, refl, ℕ, ◌+◌, ◌*◌, ◌%◌, ◌^◌, ◌≤◌, ◌<◌, length, get_or, set, replicate};
ghost use Rattle.rules.specs.Bytes.{splice, part};
ghost use Rattle.rules.specs.Fields.{joined, own_of};
ghost use Rattle.rules.specs.View.{view_controller, view};
ghost use Rattle.image.specs.Fits.{fits_in, setting_fits, scalars_fit, own_bits};
ghost use Rattle.image.specs.Image.{laid, setting_bytes, image_of, number_in, numbers_in, controller_in, device_in, held_bits, alike, is_image};
ghost use Rattle.image.specs.Held.{held_at};
ghost use Rattle.image.specs.Parts.{scalars_of, channels_of, levels_of, taken_of};

use rules::{Controller, Device};

// How long an image is.
pub const BYTES: usize = 8720;

// ---- numbers of 64, 32, 16 and 8 bits, each in 8 bytes, from place `from` on

// A number that is held in 8 bytes of an image, of which it may need fewer. (Not `words::Word`, whose numbers have as many bytes as they need, nor `Into<u64>`
// alone, which has no way back.)
trait Held: Copy {
    // How many bits it has.
    ghost bits: { ℕ };

    // The number, and those of a row.
    ghost value: { Self → ℕ };

    ghost values: { List Self → List ℕ };

    fn whole(self) -> u64
        ensures { result ≡ value self };

    // Its low bits.
    fn low(whole: u64) -> Self
        ensures { value result ≡ whole % 2 ^ bits };

    ghost values_long: { (v : List Self) → length (values v) ≡ length v };

    ghost values_at: { (v : List Self) (i : ℕ) (x : Self) → i < length v → x ≡ get_or v i x → value x ≡ get_or (values v) i 0 };

    ghost values_set: { (v : List Self) (i : ℕ) (x : Self) → values (set v i x) ≡ set (values v) i (value x) };
}

impl Held for u64 {
    ghost bits = { 64 };

    ghost value = { λ x. x };

    ghost values = { λ v. v };

    ghost values_long = { λ v. refl };

    ghost values_at = { held_at };

    ghost values_set = { λ v i x. refl };

    fn whole(self) -> u64 {
        self
    }

    fn low(whole: u64) -> u64 {
        whole
    }
}

impl Held for u32 {
    ghost bits = { 32 };

    ghost value = { λ x. x };

    ghost values = { λ v. v };

    ghost values_long = { λ v. refl };

    ghost values_at = { held_at };

    ghost values_set = { λ v i x. refl };

    fn whole(self) -> u64 {
        u64::from(self)
    }

    fn low(whole: u64) -> u32 {
        (whole % 0x100000000) as u32
    }
}

impl Held for u16 {
    ghost bits = { 16 };

    ghost value = { λ x. x };

    ghost values = { λ v. v };

    ghost values_long = { λ v. refl };

    ghost values_at = { held_at };

    ghost values_set = { λ v i x. refl };

    fn whole(self) -> u64 {
        u64::from(self)
    }

    fn low(whole: u64) -> u16 {
        (whole % 0x10000) as u16
    }
}

impl Held for u8 {
    ghost bits = { 8 };

    ghost value = { λ x. x };

    ghost values = { λ v. v };

    ghost values_long = { λ v. refl };

    ghost values_at = { held_at };

    ghost values_set = { λ v i x. refl };

    fn whole(self) -> u64 {
        u64::from(self)
    }

    fn low(whole: u64) -> u8 {
        (whole % 0x100) as u8
    }
}

fn put_row<T: Held>(image: &mut [u8], from: usize, v: &[T])
    requires { 2064 + 8 * (from + length v.now) ≤ length image.old }
    ensures { image.new ≡ splice image.old (2064 + 8 * from) (laid (T.values v.now)) }
{
    for k in (0..v.len()).rev() {
        words::put(image, 2064 + 8 * (from + k), v[k].whole());
    }
}

// The low six bits of each. It stays beside `put_row`: by a type of their own the bytes would be copied first, which is no plainer.
fn put_sixes(image: &mut [u8], from: usize, v: &[u8])
    requires { 2064 + 8 * (from + length v.now) ≤ length image.old }
    ensures { image.new ≡ splice image.old (2064 + 8 * from) (laid (map (λ (x : ℕ). x % 64) v.now)) }
{
    for k in (0..v.len()).rev() {
        words::put(image, 2064 + 8 * (from + k), u64::from(v[k] % 64));
    }
}

// The bytes of `table` laid over the first of the image.
fn put_table(image: &mut [u8], table: &[u8])
    requires { length table.now ≤ length image.old }
    ensures { image.new ≡ splice image.old 0 table.now }
{
    image[..table.len()].copy_from_slice(table);
}

// 1 in the highest of 8 bytes where masks are ignored, 1 in the next in the chip's mode; else 0.
fn flags_of(ignore_masks: bool, chip: bool) -> u64
    ensures { result ≡ cond ignore_masks 0x0100000000000000 0 + cond chip 0x0001000000000000 0 }
{
    if ignore_masks {
        if chip {
            0x0101000000000000
        } else {
            0x0100000000000000
        }
    } else {
        if chip { 0x0001000000000000 } else { 0 }
    }
}

// Bytes 2048 to 2063.
fn put_flags(image: &mut [u8], ignore_masks: bool, chip: bool)
    requires { 2064 ≤ length image.old }
    ensures { image.new ≡ splice image.old 2048 (setting_bytes ignore_masks chip) }
{
    words::put(image, 2048, flags_of(ignore_masks, chip));
    words::put(image, 2056, 0u64);
}

// ---- reading

fn number_at<T: Held>(image: &[u8], n: usize) -> T
    requires { 2072 + 8 * n ≤ length image.now }
    ensures { T.value result ≡ number_in T.bits image.now n }
{
    T::low(words::get::<u64>(image, 2064 + 8 * n))
}

fn get_row<T: Held>(image: &[u8], from: usize, into: &mut [T])
    requires { 2064 + 8 * (from + length into.old) ≤ length image.now }
    ensures { T.values into.new ≡ numbers_in T.bits image.now from (length into.old) }
{
    for k in (0..into.len()).rev() {
        into[k] = number_at(image, from + k);
    }
}

fn get_table(image: &[u8], into: &mut [u8])
    requires { length into.old ≤ length image.now }
    ensures { into.new ≡ part image.now 0 (length into.old) }
{
    into.copy_from_slice(&image[..into.len()]);
}

// ---- a device

// Fields 0 to 15: 0, and over the first of them the numbers that stand alone.
fn put_scalars(image: &mut [u8], d: Device)
    requires { 2192 ≤ length image.old }
    ensures { image.new ≡ splice image.old 2064 (laid (joined (scalars_of (view d)))) }
{
    let scalars = d.scalars;
    let listed = device::listed(scalars);
    let none = [0u64; 16];
    put_row(image, 0, &none);
    put_row(image, 0, &listed);
}

// Fields 16 to 63: each controller's own four.
fn put_own(image: &mut [u8], d: Device)
    requires { 2576 ≤ length image.old }
    ensures { image.new ≡ splice image.old 2192 (laid (own_of (view d))) }
{
    let a = device::controller_at(d, 0);
    let b = device::controller_at(d, 1);
    let c = device::controller_at(d, 2);
    let mut own = [0u64; 48];
    own[0] = a.masks;
    own[1] = a.forced;
    own[2] = a.lines;
    own[3] = a.config as u64;
    own[4] = b.masks;
    own[5] = b.forced;
    own[6] = b.lines;
    own[7] = b.config as u64;
    own[8] = c.masks;
    own[9] = c.forced;
    own[10] = c.lines;
    own[11] = c.config as u64;
    put_row(image, 16, &own);
}

// Fields 256 to 575: the level bytes of the three controllers, and 128 numbers that name no field.
fn put_levels(image: &mut [u8], d: Device)
    requires { 6672 ≤ length image.old }
    ensures { image.new ≡ splice image.old 4112 (laid (joined (levels_of (view d)))) }
{
    let a = device::controller_at(d, 0).levels;
    let b = device::controller_at(d, 1).levels;
    let c = device::controller_at(d, 2).levels;
    let none = [0u64; 128];
    put_row(image, 256, &a);
    put_row(image, 320, &b);
    put_row(image, 384, &c);
    put_row(image, 448, &none);
}

// Fields 64 to 255: busy times, majors, pending counts.
fn put_channels(image: &mut [u8], d: Device)
    requires { 4112 ≤ length image.old }
    ensures { image.new ≡ splice image.old 2576 (laid (joined (channels_of (view d)))) }
{
    let busy = d.busy;
    let majors = d.majors;
    let pending = d.pending;
    put_row(image, 64, &busy);
    put_row(image, 128, &majors);
    put_row(image, 192, &pending);
}

// Fields 768 to 831: of priorities the bits that the mode has, six or none.
fn put_priorities(image: &mut [u8], d: Device)
    requires { 8720 ≤ length image.old }
    ensures { image.new ≡ splice image.old 8208 (laid (view d).priorities) }
{
    if d.chip {
        let priorities = d.priorities;
        put_sixes(image, 768, &priorities);
    } else {
        let none = [0u64; 64];
        put_row(image, 768, &none);
    }
}

// Fields 576 to 831: how often each vector was taken; and priorities.
fn put_taken(image: &mut [u8], d: Device)
    requires { 8720 ≤ length image.old }
    ensures { image.new ≡ splice image.old 6672 (laid (joined (taken_of (view d)))) }
{
    let taken = d.taken;
    put_row(image, 576, &taken);
    put_priorities(image, d);
}

// The whole image of a device. (That it has 8,720 bytes stays a clause here and below: the entries are lent slices, whose length `is_image` tests.)
pub fn put_device(image: &mut [u8], d: Device)
    requires { length image.old ≡ 8720 }
    ensures { image.new ≡ image_of (view d) }
{
    let table = d.table;
    put_table(image, &table);
    put_flags(image, d.ignore_masks, d.chip);
    put_scalars(image, d);
    put_own(image, d);
    put_channels(image, d);
    put_levels(image, d);
    put_taken(image, d);
}

fn get_controller(image: &[u8], c: usize) -> Controller
    requires { (length image.now ≡ 8720) × (c < 3) }
    ensures { view_controller result ≡ controller_in image.now c }
{
    let mut levels = [0u8; 64];
    get_row(image, 256 + 64 * c, &mut levels);
    Controller {
        masks: number_at(image, 16 + 4 * c),
        forced: number_at(image, 17 + 4 * c),
        lines: number_at(image, 18 + 4 * c),
        levels,
        config: number_at(image, 19 + 4 * c),
    }
}

// The device that stands in an image. Its priorities are held as they are there.
pub fn get_device(image: &[u8]) -> Device
    requires { length image.now ≡ 8720 }
    ensures { view result ≡ device_in image.now }
{
    let mut first = [0u64; 16];
    get_row(image, 0, &mut first);
    let scalars = device::from_list(&first);
    let mut table = [0u8; 2048];
    get_table(image, &mut table);
    let mut busy = [0u64; 64];
    get_row(image, 64, &mut busy);
    let mut majors = [0u64; 64];
    get_row(image, 128, &mut majors);
    let mut taken = [0u64; 192];
    get_row(image, 576, &mut taken);
    let mut pending = [0u32; 64];
    get_row(image, 192, &mut pending);
    let mut priorities = [0u8; 64];
    get_row(image, 768, &mut priorities);
    let a = get_controller(image, 0);
    let b = get_controller(image, 1);
    let c = get_controller(image, 2);
    Device {
        scalars,
        table,
        busy,
        majors,
        taken,
        pending,
        priorities,
        controllers: [a, b, c],
        ignore_masks: image[2048] == 1,
        chip: image[2049] == 1,
    }
}

// ---- which bytes are an image: those that laying down the device in them would give again. What fits 64 bits always does.

// Each of `count` numbers from place `from` on fits `bits` bits: so exactly if the greatest does. Asked one by one, or by their OR, numbers cost
// more: then the compiler sees no load of 8 bytes.
fn fits(image: &[u8], from: usize, count: usize, bits: usize) -> bool
    requires { (2064 + 8 * (from + count) ≤ length image.now) × (bits < 64) }
    ensures { result ≡ fits_in (replicate count bits) image.now from }
{
    let mut most = 0u64;
    for k in (0..count).rev() {
        most = most.max(number_at(image, from + k));
    }
    most >> bits == 0
}

// Bytes 2048 to 2063.
fn setting_fits(image: &[u8]) -> bool
    requires { length image.now ≡ 8720 }
    ensures { result ≡ setting_fits image.now }
{
    let flags = flags_of(image[2048] == 1, image[2049] == 1);
    (words::get::<u64>(image, 2048) == flags) & (words::get::<u64>(image, 2056) == 0)
}

// Fields 0 to 15: the numbers that stand alone are those of their types, and 0 is behind them.
fn scalars_fit(image: &[u8]) -> bool
    requires { length image.now ≡ 8720 }
    ensures { result ≡ scalars_fit image.now }
{
    let mut first = [0u64; 16];
    get_row(image, 0, &mut first);
    let scalars = device::from_list(&first);
    let listed = device::listed(scalars);
    first.starts_with(&listed) & fits(image, listed.len(), 16 - listed.len(), 0)
}

// Fields 16 to 63: of each controller's own four ICONFIG is narrow, and 0 is behind them.
fn own_fit(image: &[u8]) -> bool
    requires { length image.now ≡ 8720 }
    ensures { result ≡ fits_in own_bits image.now 16 }
{
    fits(image, 19, 1, 16)
        & fits(image, 23, 1, 16)
        & fits(image, 27, 1, 16)
        & fits(image, 28, 36, 0)
}

// "Each 0..255", "of which the low six bits count"; and 0 in the old mode.
fn held_bits(chip: bool) -> usize
    ensures { result ≡ held_bits chip }
{
    if chip { 8 } else { 0 }
}

// The bytes are a device's. Of the rows behind field 63 four are narrow: pending counts, level bytes, 0, and priorities.
pub fn is_image(image: &[u8]) -> bool
    ensures { result ≡ is_image image.now }
{
    if image.len() != BYTES {
        return false;
    }
    setting_fits(image)
        & scalars_fit(image)
        & own_fit(image)
        & fits(image, 192, 64, 32)
        & fits(image, 256, 192, 8)
        & fits(image, 448, 128, 0)
        & fits(image, 768, 64, held_bits(image[2049] == 1))
}
