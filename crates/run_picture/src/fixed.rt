//! The parts of a picture that are the same in each.

ghost use Rattle.std.specs.Prelude.{◌≡◌, ◌++◌, OnOk};
ghost use Rattle.run_picture.specs.Picture.{begin_text, ground_text, legend_text, frame_text};

use std::alloc::AllocError;

/// The size of the picture, and how what is of each class looks.
const BEGIN: &[u8] =
    b"<svg xmlns='http://www.w3.org/2000/svg' viewBox='0 0 12000 8480' width='100%' role='img'>\n<style>\ntext{font-family:sans-serif;font-size:170px;fill:#222}\n.h{font-size:230px;font-weight:bold}\n.u{font-size:150px;text-anchor:end}\n.e{text-anchor:end}\n.m{text-anchor:middle}\n.k{font-size:150px;text-anchor:end}\n.b{font-weight:bold}\n.g{stroke:#ddd;stroke-width:8}\n.a{stroke:#444;stroke-width:14;fill:none}\n.s{stroke:#888;stroke-width:12;fill:none}\n.q{stroke:#999;stroke-width:9;fill:none;stroke-dasharray:60 50}\n.t{fill:#222}\n.l{stroke:#555;stroke-width:22;fill:none}\n.n{fill:#b5b5b5}\n.c{fill:none;stroke-width:50;stroke-linecap:round}\n.hold{stroke:#2f66a8}\n.power{stroke:#8b0f2e}\n.coast{stroke:#85cc8a}\n.brake{stroke:#111}\n.part{stroke:#d2691e}\n</style>\n";

/// The white ground.
const GROUND: &[u8] = b"<rect width='12000' height='8480' fill='#fff'/>\n";

/// What the colours and marks mean, and the units of the axes.
const LEGEND: &[u8] =
    b"<path class='c power' d='M300 650h350'/><text x='730' y='705'>full power</text>\n<path class='c hold' d='M1850 650h350'/><text x='2280' y='705'>hold</text>\n<path class='c part' d='M2950 650h350'/><text x='3380' y='705'>part</text>\n<path class='c coast' d='M4000 650h350'/><text x='4430' y='705'>coast</text>\n<path class='c brake' d='M5200 650h350'/><text x='5630' y='705'>brake</text>\n<path class='l' d='M6450 650h350'/><text x='6880' y='705'>limit</text>\n<path class='n' d='M7600 580h350v140h-350z'/><text x='8030' y='705'>gradient</text>\n<path class='t' d='M9140 710l-80-120h160z'/><text x='9290' y='705'>latest time</text>\n<path class='q' d='M10500 650h350'/><text x='10930' y='705'>pass</text>\n<text class='u' x='820' y='910'>km/h</text><text class='u' x='820' y='5120'>&#8240;</text><text class='u' x='620' y='5540'>km</text>\n";

/// The left axis, and the lines of standstill and of level track.
const FRAME: &[u8] = b"<path class='a' d='M900 1050V5340M900 4250H11700M900 4900H11700'/>\n";

/// Appends how a picture begins.
#[tactic(auto, unfolding(crate::specs::Picture::begin_text))]
pub fn put_begin(out: &mut Vec<u8>) -> Result<(), AllocError>
    ensures { OnOk result (out.new.items ≡ out.old.items ++ begin_text) }
{
    out.extend_from_slice(BEGIN)
}

/// Appends the white ground.
#[tactic(auto, unfolding(crate::specs::Picture::ground_text))]
pub fn put_ground(out: &mut Vec<u8>) -> Result<(), AllocError>
    ensures { OnOk result (out.new.items ≡ out.old.items ++ ground_text) }
{
    out.extend_from_slice(GROUND)
}

/// Appends what the colours and marks mean.
#[tactic(auto, unfolding(crate::specs::Picture::legend_text))]
pub fn put_legend(out: &mut Vec<u8>) -> Result<(), AllocError>
    ensures { OnOk result (out.new.items ≡ out.old.items ++ legend_text) }
{
    out.extend_from_slice(LEGEND)
}

/// Appends the left axis, and the lines of standstill and of level track.
#[tactic(auto, unfolding(crate::specs::Picture::frame_text))]
pub fn put_frame(out: &mut Vec<u8>) -> Result<(), AllocError>
    ensures { OnOk result (out.new.items ≡ out.old.items ++ frame_text) }
{
    out.extend_from_slice(FRAME)
}
