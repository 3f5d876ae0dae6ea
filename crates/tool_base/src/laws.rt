// Laws over the definitions alone.
ghost use Rattle.tool_base.specs.Laws.{AnswersAreRead, CodecsAreRead, LossesAreRead};
ghost use Rattle.tool_base.specs.Laws.{NumbersAreRead, OrdersAreRead};

/// Where words pass a table of options, the text that they give for one of its options means what
/// is read of it: this number, codec, loss or order, `yes` or `no`, and never a default in its
/// place.
pub fn what_is_given_is_read()
    ensures numbers { NumbersAreRead }
    ensures codecs { CodecsAreRead }
    ensures losses { LossesAreRead }
    ensures orders { OrdersAreRead }
    ensures answers { AnswersAreRead }
{}
