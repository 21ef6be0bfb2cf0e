// The lines before the cubes: the numbers of inputs, outputs and cubes.
ghost use Rattle.std.specs.Prelude.{◌≡◌};
ghost use Rattle.pla.specs.Text.{head};
ghost use Rattle.pla.specs.Writing.{Fits, Wrote};

use crate::writer::Writer;

// 13 bytes, and two numbers of at most 20 digits.
pub const HEAD_BYTES: usize = 53;

// The head, written into memory of its own, since it alone has no length that is known before it is written.
#[tactic(auto, using(crate::proofs::Parts::length_head_le))]
pub fn write_head(n: u32, count: usize, memory: &mut [u8; HEAD_BYTES]) -> &[u8]
    ensures { result.now ≡ head n count }
{
    let mut writer = Writer::new(memory);
    write_head_lines(&mut writer, n, count);
    writer.into_written()
}

// The head. For the text it is written anew: a copy of its bytes, whose number is not known when this is compiled, would need
// `memmove` from whoever links the call for C.
#[tactic(auto, using(crate::proofs::Parts::length_head))]
pub fn write_head_lines(writer: &mut Writer, n: u32, count: usize)
    requires { Fits writer.old (head n count) }
    ensures { Wrote writer.old (head n count) writer.new }
{
    writer.write(b".i ");
    writer.write_number(n as usize);
    writer.write(b"\n.o 1\n.p ");
    writer.write_number(count);
    writer.write(b"\n");
}
