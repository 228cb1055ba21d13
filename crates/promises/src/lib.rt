// What the library promises, as the contract of a function that does nothing: specs/ states it, proofs/ proves it. What is promised of the
// public calls speaks of their contracts as the checker reads them, which no clause of a function may cite: proofs/Statements/ states it, and
// the function's proof stands on proofs/OfCalls.antt, which proves all of it. A statement without a proof leaves this function unproved.
#![tactic(auto)]

ghost use Rattle.promises.specs.Check.{Check};
ghost use Rattle.promises.specs.TextTypes.{TextTypes};
ghost use Rattle.promises.specs.Calendar.{Calendar};
ghost use Rattle.promises.specs.Values.{AllCome};
ghost use Rattle.promises.specs.Starred.{starred};
ghost use Rattle.promises.specs.Fixed.{fixed};

fn promised()
    ensures { Check × TextTypes × Calendar × AllCome starred × AllCome fixed }
{}
