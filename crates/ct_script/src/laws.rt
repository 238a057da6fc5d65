// What holds of every reply and of every script.
ghost use Rattle.std.specs.Prelude.{◌≡◌, ◌==◌, ◌++◌, ◌<◌, ℕ, List, [], ◌∷◌, length, count_by};
ghost use Rattle.ct_script.specs.Feed.{IsUnended};
ghost use Rattle.ct_script.specs.Script.{lines, items, items_of, whole};
ghost use Rattle.ct_script.specs.Texts.{reply_line, text};
ghost use Rattle.ct_script.specs.declared.scratch.TheConstants.{LINE_BYTES};
ghost use Rattle.ct_tree.specs.Runs.{bad};
ghost use Rattle.ct_tree.specs.declared.call.Reply.{Reply};

/// The line of a reply has one byte 10, so that as many replies were written whole as there are bytes 10.
pub fn a_reply_is_one_line()
    ensures one { (reply : Reply) → count_by (λ b. b == 10) (reply_line reply) ≡ 1 }
    ensures all { (replies : List Reply) → count_by (λ b. b == 10) (text replies) ≡ length replies }
{}

/// The items of two scripts, of which the first ends with a line end, are the items of both; it has no other items than those
/// of the lines that are ended.
pub fn scripts_are_joined()
    ensures lines { (script more : List ℕ) → lines (script ++ 10 ∷ more) ≡ lines script ++ lines more }
    ensures items { (script more : List ℕ) → items ((script ++ 10 ∷ []) ++ more) ≡ items (script ++ 10 ∷ []) ++ items more }
    ensures whole { (script : List ℕ) → whole (script ++ 10 ∷ []) ≡ items (script ++ 10 ∷ []) }
{}

/// A script is its first line and the rest: so are its items, and those of the lines that are ended. The last line counts where it
/// has an item, but is not ended. A line of more than 65,536 bytes is a bad one.
pub fn a_script_is_line_by_line()
    ensures next { (line more : List ℕ) → IsUnended line → items (line ++ 10 ∷ more) ≡ items_of line ++ items more }
    ensures ended { (line more : List ℕ) → IsUnended line → whole (line ++ 10 ∷ more) ≡ items_of line ++ whole more }
    ensures last { (line : List ℕ) → IsUnended line → items line ≡ items_of line }
    ensures none { (line : List ℕ) → IsUnended line → whole line ≡ [] }
    ensures long { (line : List ℕ) → LINE_BYTES < length line → items_of line ≡ bad ∷ [] }
{}
