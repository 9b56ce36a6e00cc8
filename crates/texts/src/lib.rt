// What a part that writes text answers: how many bytes it wrote, or the check's refusal or stop. Those leave the output as lent, and so does an output
// that is too short, which is `NoRoom` with line 0. There is no code here: the contracts of the parts cite it.
#![tactic(auto)]
