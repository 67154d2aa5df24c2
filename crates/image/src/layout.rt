// The layout of an image (document 01, "The image"): its parts in order.
ghost use Rattle.std.specs.Prelude.{◌≡◌, IfOk};
ghost use Rattle.net.specs.Records.{empty_net};
ghost use Rattle.bitreader.specs.Progress.{Reads};
ghost use Rattle.image.specs.Image.{code, layout};
ghost use Rattle.image.specs.Progress.{filled, placed, Sized, Counted, Begun};

use crate::header::read_header;
use crate::rows::read_rows;
use crate::starts::read_processes;
use crate::stores::read_tuples;
use bitreader::reader::BitReader;
use instructions::instruction::read_instruction;
use net::network::Net;
use readers::fault::Fault;

// The code.
fn read_code(r: &mut BitReader, net: &mut Net) -> Result<(), Fault>
    requires { Sized net.now }
    ensures reads { Reads r.old (code net.old) (filled result net.new) r.new }
    ensures kept { Counted net.old net.new }
{
    for p in 0..net.length {
        net.code[p] = read_instruction(r, net.format, net.addresses, net.length)?;
    }
    Ok(())
}

// The whole, into the empty net, by a reader at the first bit: the place at which the processes' entries begin.
pub(crate) fn read_layout(r: &mut BitReader, net: &mut Net) -> Result<usize, Fault>
    requires blank { net.now ≡ empty_net }
    requires first { r.now.at ≡ 0 }
    ensures reads { Reads r.old layout (placed result net.new) r.new }
    ensures sized { Sized net.new }
    ensures begun { IfOk result (λ starts. Begun r.old.image.now starts net.new) }
{
    read_header(r, net)?;
    read_rows(r, net)?;
    let starts = r.place();
    read_processes(r, net)?;
    read_tuples(r, net)?;
    read_code(r, net)?;
    r.ending()?;
    Ok(starts)
}
