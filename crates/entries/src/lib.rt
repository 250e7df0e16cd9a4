// The C entries: for C or Rust to link. Each is thin: image to device, the call, device to image; docs/ABI.md says what they are given and answer.
// Their contracts are those of the calls between two images (specs/Entry.antt).
#![tactic(auto)]

ghost use Rattle.std.specs.Prelude.{[], ◌≡◌, ◌%◌, ◌^◌, length};
ghost use Rattle.rules.specs.Calls.{verdict_number, after, after_back, after_read, write, inputs, pending, run, service, ack};
ghost use Rattle.rules.specs.View.{view};
ghost use Rattle.image.specs.Image.{device_in};
ghost use Rattle.answers.specs.Answers.{packed, left};
ghost use Rattle.entries.specs.Entry.{image_after, entered, Aside, entered_read, entered_capture, freshened};

use rules::{Acted, Device, Verdict};

// ---- answers

// A device laid down where the call that answers it was accepted; after a refusal the image is as it was, byte by byte.
fn lay_down(image: &mut [u8], v: Verdict, d: Device)
    requires { length image.old ≡ 8720 }
    ensures { image.new ≡ image_after image.old (verdict_number v) (view d) }
{
    let Ok(()) = v else {
        return;
    };
    image::put_device(image, d);
}

// The device that an act or a take-back answers, laid down; and its answer.
fn put_back(image: &mut [u8], r: Acted) -> u64
    requires { length image.old ≡ 8720 }
    ensures { (result ≡ packed (verdict_number r.verdict) 0 0 r.used) × (image.new ≡ image_after image.old (verdict_number r.verdict) (view r.device)) }
{
    let v = r.verdict;
    lay_down(image, v, r.device);
    answers::answer_of(v, r.used)
}

// ---- the entries

// A fresh device is laid down, whatever stood there.
#[unsafe(no_mangle)]
pub extern "C" fn kp_fresh(image: &mut [u8], ignore_masks: u32, mode: u32) -> u64
    ensures { left result image.new [] [] [] ≡ freshened image.old ignore_masks mode }
{
    if image.len() != image::BYTES {
        return answers::packed(255, 0, 0, 0);
    }
    if 1 < ignore_masks {
        return answers::packed(255, 0, 0, 0);
    }
    if 1 < mode {
        return answers::packed(255, 0, 0, 0);
    }
    image::put_device(image, device::fresh(ignore_masks == 1, mode == 1));
    0
}

#[unsafe(no_mangle)]
pub extern "C" fn kp_read(image: &[u8], address: u32, size: u32) -> u64
    ensures { result ≡ entered_read image.now (after_read (device_in image.now) address size) }
{
    if !image::is_image(image) {
        return answers::packed(255, 0, 0, 0);
    }
    answers::reading_of(registers::read(image::get_device(image), address, size))
}

#[unsafe(no_mangle)]
pub extern "C" fn kp_write(
    image: &mut [u8],
    address: u32,
    size: u32,
    value: u32,
    journal: &mut [u8],
    used: u64,
) -> u64
    ensures { Aside (write address size value) image.old image.new journal.old journal.new used result }
{
    if !image::is_image(image) {
        return answers::packed(255, 0, 0, used);
    }
    let d = image::get_device(image);
    let r = registers::write(d, address, size, value, journal, used as usize);
    put_back(image, r)
}

#[unsafe(no_mangle)]
pub extern "C" fn kp_inputs(
    image: &mut [u8],
    standing: u64,
    lines0: u64,
    lines1: u64,
    lines2: u64,
    journal: &mut [u8],
    used: u64,
) -> u64
    ensures { Aside (inputs standing lines0 lines1 lines2) image.old image.new journal.old journal.new used result }
{
    if !image::is_image(image) {
        return answers::packed(255, 0, 0, used);
    }
    let d = image::get_device(image);
    let r = registers::inputs(d, standing, lines0, lines1, lines2, journal, used as usize);
    put_back(image, r)
}

#[unsafe(no_mangle)]
pub extern "C" fn kp_pending(
    image: &mut [u8],
    channel: u32,
    count: u32,
    journal: &mut [u8],
    used: u64,
) -> u64
    ensures { Aside (pending channel count) image.old image.new journal.old journal.new used result }
{
    if !image::is_image(image) {
        return answers::packed(255, 0, 0, used);
    }
    let d = image::get_device(image);
    let r = registers::pending(d, channel, count, journal, used as usize);
    put_back(image, r)
}

#[unsafe(no_mangle)]
pub extern "C" fn kp_run(
    image: &mut [u8],
    time: u64,
    pace: u64,
    base: u32,
    window: &mut [u8],
    staging: &mut [u8],
    journal: &mut [u8],
    used: u64,
) -> u64
    ensures { left result image.new window.new staging.new journal.new ≡ entered image.old window.old staging.old journal.old used (after (run time pace) base (device_in image.old) window.old staging.old journal.old used) }
{
    if !image::is_image(image) {
        return answers::packed(255, 0, 0, used);
    }
    let d = image::get_device(image);
    let r = engine::run(d, time, pace, base, window, staging, journal, used as usize);
    put_back(image, r)
}

#[unsafe(no_mangle)]
pub extern "C" fn kp_service(
    image: &mut [u8],
    time: u64,
    pace: u64,
    base: u32,
    window: &mut [u8],
    staging: &mut [u8],
    journal: &mut [u8],
    used: u64,
) -> u64
    ensures { left result image.new window.new staging.new journal.new ≡ entered image.old window.old staging.old journal.old used (after (service time pace) base (device_in image.old) window.old staging.old journal.old used) }
{
    if !image::is_image(image) {
        return answers::packed(255, 0, 0, used);
    }
    let d = image::get_device(image);
    let r = engine::service(d, time, pace, base, window, staging, journal, used as usize);
    put_back(image, r)
}

// Of `ipl` the low byte counts.
#[unsafe(no_mangle)]
pub extern "C" fn kp_acknowledge(image: &mut [u8], ipl: u32, journal: &mut [u8], used: u64) -> u64
    ensures { Aside (ack (ipl % 2 ^ 8)) image.old image.new journal.old journal.new used result }
{
    if !image::is_image(image) {
        return answers::packed(255, 0, 0, used);
    }
    let d = image::get_device(image);
    let a = registers::acknowledge(d, (ipl % 0x100) as u8, journal, used as usize);
    let v = a.verdict;
    let h = a.heard;
    lay_down(image, v, a.device);
    answers::heard_answer(v, h, a.used)
}

#[unsafe(no_mangle)]
pub extern "C" fn kp_take_back(
    image: &mut [u8],
    base: u32,
    window: &mut [u8],
    journal: &mut [u8],
    used: u64,
) -> u64
    ensures { left result image.new window.new [] journal.new ≡ entered image.old window.old [] journal.old used (after_back base (device_in image.old) window.old journal.old used) }
{
    if !image::is_image(image) {
        return answers::packed(255, 0, 0, used);
    }
    let d = image::get_device(image);
    let r = back::take_back(d, base, window, journal, used as usize);
    put_back(image, r)
}

// Document 02, [2]: a capture from the board, beside no image.
#[unsafe(no_mangle)]
pub extern "C" fn kp_capture(descriptor: &[u8], cr: u32, records: &[u8]) -> u64
    ensures { result ≡ entered_capture descriptor.now cr records.now }
{
    if descriptor.len() != 32 {
        return answers::packed(255, 0, 0, 0);
    }
    answers::captured_answer(judge::captured(descriptor, cr, records))
}
