// A round in one call, for C: begin, writes and a commit, which checks the state once.
ghost use Rattle.std.specs.Prelude.{◌≡◌};
ghost use Rattle.refinement.specs.Calls.{world_of};
ghost use Rattle.call_round.specs.Round.{round_of};
ghost use Rattle.state_words.specs.Decoded.{decoded};
ghost use Rattle.badgerdross.specs.Left.{Plays, room_by};

use call_round::Room;
use state_words::Words;

// What is done for want of room: 1 a checkpoint, 2 a slot freed, 3 both.
fn room_of(n: usize) -> Room
    ensures { result ≡ room_by n }
{
    Room {
        checkpoint: n % 2 == 1,
        free: n / 2 % 2 == 1,
    }
}

// Plays a round: begin, writes, a commit, each run to its end. Puts down which of them gave the number.
#[unsafe(no_mangle)]
pub extern "C" fn badgerdross_round(
    words: &mut Words,
    image: &mut [u8],
    writer: usize,
    writes: &[u64],
    data: &[u8],
    room: usize,
    call: &mut usize,
) -> usize
    ensures round { Plays result (decoded words.new) image.new call.new
        (round_of (room_by room) writer writes.now «data».now (world_of (decoded words.old) image.old)) }
{
    let played = call_round::play(image, words, writer, writes, data, room_of(room));
    *call = played.call;
    played.number
}
