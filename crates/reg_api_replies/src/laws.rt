//! What holds of sending, whatever the code.
//! The functions do nothing: their contracts are the laws.

ghost use Rattle.std.specs.Prelude.{◌≡◌, ◌+◌, ◌-◌, ◌++◌, List, ℕ, Bool, false, Result};
ghost use Rattle.reg_model.specs.Events.{Answer, Asked};
ghost use Rattle.reg_api_replies.specs.Replies.{Says};
ghost use Rattle.reg_api_replies.specs.declared.reply.Reply.{Reply};
ghost use Rattle.reg_api_replies.specs.Piled.{Piles};
ghost use Rattle.reg_body.specs.Sent.{IsStopped, Sends, SendsAll, Sink, after};
ghost use Rattle.reg_api_replies.specs.Texts.{answer_text, reply_text};
ghost use Rattle.reg_body.specs.declared.bytes.SendFault.{SendFault};

/// Sending two texts one after another is sending their concatenation.
pub fn joined_law()
    ensures both { (a b : List ℕ) (writes used : ℕ) (s t u : Sink) (r : Result ℕ SendFault)
        → SendsAll a writes used s t → Sends r b (writes - used) t u
        → Sends (after used r) (a ++ b) writes s u }
    ensures first { (f : SendFault) (a b : List ℕ) (writes : ℕ) (s t : Sink)
        → IsStopped f a writes s t → IsStopped f (a ++ b) writes s t }
{}

/// Two texts put after a waiting one, one after another, are put there together; and all is sent
/// once the rest is.
pub fn pile_law()
    ensures both { (waiting a b between rest : List ℕ) (writes used more : ℕ) (s t u : Sink)
        → Piles waiting a between writes used s t
        → Piles between b rest (writes - used) more t u
        → Piles waiting (a ++ b) rest writes (used + more) s u }
    ensures stopped { (f : SendFault) (waiting a b between : List ℕ) (writes used : ℕ)
        (s t u : Sink) → Piles waiting a between writes used s t
        → IsStopped f (between ++ b) (writes - used) t u
        → IsStopped f (waiting ++ (a ++ b)) writes s u }
    ensures sent { (waiting text rest : List ℕ) (writes used : ℕ) (s t u : Sink)
        (r : Result ℕ SendFault) → Piles waiting text rest writes used s t
        → Sends r rest (writes - used) t u → Sends (after used r) (waiting ++ text) writes s u }
{}

/// A reply that gives an answer is sent as the answer's text.
pub fn answer_law()
    ensures { (asked : Asked) (a : Answer) (reply : Reply) (close : Bool) → Says asked a reply
        → reply_text reply close false ≡ answer_text asked a close }
{}
