//! What a link gives over a sequence of sends.
ghost use Rattle.std.specs.Prelude.{◌≡◌, ◌≤◌, ◌++◌, ℕ, List, length};
ghost use Rattle.plan_text.specs.declared.plan.LinkFault.{LinkFault};
ghost use Rattle.fault_script.specs.Links.{Script, fault_at, link, link_after};
ghost use Rattle.fault_script.specs.Passing.{given_in_all, most_sends, opening};

/// What a link gives for consecutive sends is the Link of its script and the sends, of which the first 2^33 are
/// counted.
pub fn passes_are_link()
    ensures { (links : List LinkFault) (from to : ℕ) (sends : List (List ℕ)) → length sends ≤ most_sends
        → given_in_all (opening links from to) sends ≡ link (fault_at links from to) sends }
{}

/// What is given for the first sends is a prefix of what is given for all.
pub fn prefix_gives_prefix()
    ensures { (script : Script) (sends more : List (List ℕ))
        → link script (sends ++ more) ≡ link script sends ++ link_after script sends more }
{}
