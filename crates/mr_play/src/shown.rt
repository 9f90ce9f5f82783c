//! What is shown beside what `play` prints.
ghost use Rattle.std.specs.Prelude.{◌≡◌, IfOk, IfErr};
ghost use Rattle.mr_sim_commands.specs.declared.fault.SimFault.TheVariants as fault;
ghost use Rattle.mr_play.specs.Shown.{HasText};

use crate::histories::print_histories;
use crate::player::Player;
use crate::world_text::print_world;
use mr_sim_commands::SimFault;

/// What `play` shows beyond what came of the script.
#[derive(Clone, Copy, Debug, PartialEq, Eq)]
pub struct Shown {
    /// Each event, with the line that made it, its store call and the packets that it added, before the rest.
    pub trace: bool,
    /// The stable bytes of each generation's history, behind the rest.
    pub history: bool,
}

/// What is printed of a player, with what is shown beside it: behind the text `before`, and before its history, where that is asked for. It fails by nothing but an allocation failure.
pub fn shown_text(player: &Player, shown: Shown, before: Vec<u8>) -> Result<Vec<u8>, SimFault>
    ensures text { IfOk result (λ text. HasText player.now shown before.items text.items) }
    ensures memory { IfErr result (λ e. e ≡ fault.NoMemory) }
{
    let mut text = before;
    text.extend_from_slice(&player.told)?;
    print_world(&mut text, &player.world)?;
    if shown.history {
        print_histories(&mut text, &player.world)?;
    }
    Ok(text)
}
