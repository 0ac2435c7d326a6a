// The numbers that the rules hold on to, as one list of cases: what each public contract allows for them is what stands there.
//
// There is no code here. specs/Case.antt says what a case is, specs/Cases.antt holds the list, proofs/Worked.antt the one claim
// about all its entries. specs/Wrong.antt has the wrong programs that the rules name, proofs/Wrong.antt that no contract admits them.
// Nothing is assumed.
#![tactic(auto)]
