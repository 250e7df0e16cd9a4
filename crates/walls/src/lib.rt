// No code: theorems that shut out wrong programs, for any code that meets the contracts of the public calls. They stand beside the rules and not
// in them, so that an edit of the rules is refused without them.
#![tactic(auto)]
