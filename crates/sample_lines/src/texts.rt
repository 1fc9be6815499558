//! The three texts of a sample.

ghost use Rattle.std.specs.Prelude.{◌≡◌, ℕ, ◌+◌, ◌*◌, ◌%◌, ◌<◌, ◌++◌, ◌∷◌, pos, ◌-ℤ◌, IfOk, OnOk};
ghost use Rattle.std.specs.Fmt.{signed_decimal};
ghost use Rattle.sample_lines.specs.Draws.{sections};
ghost use Rattle.sample_lines.specs.Texts.{gradient_lines, limit_lines, line_text, row_line, service_text, train_text};

use crate::bytes::Bytes;
use crate::draws::Generator;
use rail_base::{put_line, put_number};
use std::alloc::{AllocError, Global};

/// How many sections a sample has of each kind.
const SECTIONS: u32 = 40;

/// The train of every sample.
const TRAIN: &[u8] =
    b"mass = 4000\ninertia = 4200\na = 4000\nb = 30\nc = 800\ntraction = [[0, 250000], [1500, 250000], [4000, 100000]]\nbrake = [[0, 300000], [4000, 300000]]\n";

/// The service of every sample.
const SERVICE: &[u8] =
    b"place,name,dwell,latest\n0,S0,,\n10000,S1,30,\n20000,S2,30,\n30000,S3,30,\n40000,S4,,3600\n";

/// The texts of a sample's files.
#[derive(Drop)]
pub struct SampleFiles {
    /// The line: 40 km, in sections of 1 km with a limit and a gradient each.
    pub line: Bytes,
    /// The train.
    pub train: Bytes,
    /// The service: a call every 10 km.
    pub service: Bytes,
}

/// Appends a comma and a number.
fn put_field(alloc: Global, out: &mut Vec<u8>, n: i128) -> Result<(), AllocError>
    ensures { OnOk result (out.new.items ≡ out.old.items ++ 44 ∷ signed_decimal n) }
{
    out.push(b',')?;
    put_number(alloc, out, n)
}

/// Appends the row of a kind and a value that holds on section b.
#[tactic(auto, unfolding(crate::specs::Texts::row_line))]
fn put_row(
    alloc: Global,
    out: &mut Vec<u8>,
    kind: &[u8],
    b: u32,
    value: i128,
) -> Result<(), AllocError>
    requires { b < sections }
    ensures { OnOk result (out.new.items ≡ out.old.items ++ row_line kind.now b value) }
{
    out.extend_from_slice(kind)?;
    put_field(alloc, out, (1000 * b) as i128)?;
    put_field(alloc, out, (1000 * (b + 1)) as i128)?;
    put_field(alloc, out, value)?;
    out.push(b'\n')?;
    Ok(())
}

/// The limit of a draw, km/h.
fn limit_of(draw: u32) -> i128
    ensures { result ≡ pos (54 + 9 * (draw % 9)) }
{
    54 + 9 * (draw % 9) as i128
}

/// The gradient of a draw, tenths of a per mille.
fn gradient_of(draw: u32) -> i128
    ensures { result ≡ pos (draw % 101) -ℤ pos 50 }
{
    (draw % 101) as i128 - 50
}

/// Appends the rows of the limits of sample n.
fn put_limits(alloc: Global, out: &mut Vec<u8>, n: u32) -> Result<(), AllocError>
    ensures { OnOk result (out.new.items ≡ out.old.items ++ limit_lines n sections) }
{
    let mut generator = Generator::new(n);
    for b in 0..SECTIONS {
        let draws = generator.section();
        put_row(alloc, out, b"limit", b, limit_of(draws.limit))?;
    }
    Ok(())
}

/// Appends the rows of the gradients of sample n.
fn put_gradients(alloc: Global, out: &mut Vec<u8>, n: u32) -> Result<(), AllocError>
    ensures { OnOk result (out.new.items ≡ out.old.items ++ gradient_lines n sections) }
{
    let mut generator = Generator::new(n);
    for b in 0..SECTIONS {
        let draws = generator.section();
        put_row(alloc, out, b"gradient", b, gradient_of(draws.gradient))?;
    }
    Ok(())
}

/// The line of sample n.
fn line_of(alloc: Global, n: u32) -> Result<Vec<u8>, AllocError>
    ensures { IfOk result (λ text. text.items ≡ line_text n) }
{
    let mut out = Vec::new(alloc);
    put_line(&mut out, b"kind,from,to,value")?;
    put_limits(alloc, &mut out, n)?;
    put_gradients(alloc, &mut out, n)?;
    Ok(out)
}

/// The texts of sample n. The only error is want of memory.
pub fn sample(alloc: Global, n: u32) -> Result<SampleFiles, AllocError>
    ensures line { IfOk result (λ files. files.line ≡ line_text n) }
    ensures train { IfOk result (λ files. files.train ≡ train_text) }
    ensures service { IfOk result (λ files. files.service ≡ service_text) }
{
    let line = line_of(alloc, n)?;
    let train = Vec::from_slice(alloc, TRAIN)?;
    let service = Vec::from_slice(alloc, SERVICE)?;
    Ok(SampleFiles {
        line: Bytes::of(line),
        train: Bytes::of(train),
        service: Bytes::of(service),
    })
}
