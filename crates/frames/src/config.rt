// The configuration frame.
ghost use Rattle.std.specs.Prelude.{◌≡◌, ◌-◌, length};
ghost use Rattle.refusals.specs.Numbers.{number_of, answer_of};
ghost use Rattle.frames.specs.Width.{narrow};
ghost use Rattle.frames.specs.Config.{config_len, config_frame, config_of, no_config, read_config, write_config_number, write_config_output};

use crate::frame::{open, put};
use refusals::Refusal;
use words::{ByBits, of_two, seal, two_bytes};

#[derive(Clone, Copy)]
pub struct Config {
    pub req: u16,
    pub pre: u16,
    pub ben: u16,
    pub qen: u16,
}

impl Config {
    const TYPE: u8 = 1;

    pub const LEN: usize = 11;

    // Byte by byte: the parts copied to their places take more lines.
    fn frame(self) -> [u8; Config::LEN]
        ensures { result ≡ config_frame self }
    {
        let req = two_bytes(self.req);
        let pre = two_bytes(self.pre);
        let ben = two_bytes(self.ben);
        let qen = two_bytes(self.qen);
        let mut frame = [
            Config::TYPE,
            req[0],
            req[1],
            pre[0],
            pre[1],
            ben[0],
            ben[1],
            qen[0],
            qen[1],
            0,
            0,
        ];
        seal::<ByBits>(&mut frame);
        frame
    }

    // No `From`, which could not ask for the body's length.
    #[tactic(auto, using(words::proofs::BytesAt::two_at), unfolding(crate::specs::Config::config_of))]
    fn of(body: &[u8]) -> Config
        requires { length body.now ≡ config_len - 3 }
        ensures { result ≡ config_of narrow body.now }
    {
        Config {
            req: of_two(body[0], body[1]),
            pre: of_two(body[2], body[3]),
            ben: of_two(body[4], body[5]),
            qen: of_two(body[6], body[7]),
        }
    }
}

pub fn read_config(frame: &[u8]) -> Result<Config, Refusal>
    ensures { answer_of no_config result ≡ read_config frame.now }
{
    Ok(Config::of(open(frame, Config::LEN, Config::TYPE)?))
}

pub fn write_config(fields: Config, out: &mut [u8]) -> Result<(), Refusal>
    ensures { (number_of result ≡ write_config_number out.old) × (out.new ≡ write_config_output fields out.old) }
{
    put(&fields.frame(), out)
}
