// What happens to the chunks of a volume: definitions and laws over its store alone, and over any chunk size. No code stands here.
#![tactic(auto)]
