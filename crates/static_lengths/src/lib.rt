// No code: the static entries that have a name of one length; those that the searches may compare are among them.
#![tactic(auto)]
