// Where an access to memory falls. Every access, of a transfer, of a fetched descriptor, of a record undone, asks here and nowhere else.
#![tactic(auto)]

ghost use Rattle.std.specs.Prelude.{◌≡◌, ◌≤◌};
ghost use Rattle.memory.specs.Places.{place_of};

// In the window, at an index; or nowhere, with a byte outside it.
pub fn where_is(base: u32, window: &[u8], address: u32, width: usize) -> Option<usize>
    requires { width ≤ 8 }
    ensures { result ≡ place_of base window.now address width }
{
    if address < base {
        return None;
    }
    let i = (address - base) as usize;
    if window.len() < i + width {
        return None;
    }
    Some(i)
}
