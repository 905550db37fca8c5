// Patched bytes: base bytes cut or lengthened, with single bytes changed, as a payload says.
ghost use Rattle.std.specs.Prelude.{◌≤◌, length};

// Writes the patches of a payload: u8 count at 4, then u32 place and u8 value each. A place that lies outside is passed over.
fn put_patches(p: &[u8], out: &mut [u8]) {
    let count = super::u8_in(p, 4) as usize;
    for i in 0..count {
        let at = super::u32_in(p, 5 + 5 * i) as usize;
        if let Some(byte) = out.get_mut(at) {
            *byte = super::u8_in(p, 9 + 5 * i);
        }
    }
}

// The base bytes at the length that stands first in a payload, cut or lengthened with bytes A5, and patched; and that length.
pub fn patched(base: &[u8], p: &[u8], out: &mut [u8]) -> usize
    ensures { result ≤ length out.old }
{
    let size = (super::u32_in(p, 0) as usize).min(out.len());
    let kept = size.min(base.len());
    out[..kept].copy_from_slice(&base[..kept]);
    out[kept..size].fill(0xa5);
    put_patches(p, out);
    size
}

// The place after the patches of a payload.
pub fn after_patches(p: &[u8]) -> usize
    ensures { result ≤ 1280 }
{
    5 + 5 * super::u8_in(p, 4) as usize
}
