// What the audit's program prints of two files.
#![tactic(auto)]

ghost use Rattle.std.specs.Prelude.{◌≡◌, ◌≤◌, length};
ghost use Rattle.text_lines.specs.Lines.{Wrote};
ghost use Rattle.text_output.specs.Output.{audit_text, taken, Reported};

// What is printed of a vendor image and a shipped file: 256 places, at most 3,446 bytes.
fn put_audit(vendor: &[u8], shipped: &[u8], places: &mut [u32], out: &mut [u8]) -> usize
    requires { (length places.old ≡ 256) × (3446 ≤ length out.old) }
    ensures wrote { Wrote out.old out.new 0 (audit_text vendor.now shipped.now) result }
    ensures upper_bound { result ≤ 3446 }
{
    let a = audit::audit(vendor, shipped, places);
    if a.number != 0 {
        return text_answer::put_refusal(out, a.number);
    }
    text_answer::put_told(out, a, &places[..a.settings + a.strays])
}

// What is taken of a file: nothing of one that is longer than 28,672 bytes.
fn take_up(file: &[u8]) -> &[u8]
    ensures { result.now ≡ taken file.now }
{
    if 28672 < file.len() {
        return &[];
    }
    file
}

// The program's whole output for the two files, into a buffer that always has room; how many bytes it is.
pub fn report(vendor: &[u8], shipped: &[u8], out: &mut [u8; 4096]) -> usize
    ensures { Reported vendor.now shipped.now out.old out.new result }
{
    let mut places = [0u32; 256];
    put_audit(take_up(vendor), take_up(shipped), &mut places, out)
}
